// What a single byte is.
ghost use Rattle.std.specs.Prelude.{◌≡◌, true};
ghost use Rattle.rules.specs.SettingsAndUnitTable.{DIGIT, SIGN, LETTER, is, is_next_duration};
ghost use Rattle.rules.specs.ReadingOnePart.{same_letter};

// The bit that a lower-case letter has and the upper-case one has not.
const CASE: u8 = 32;

pub fn is_digit(byte: u8) -> bool
    ensures { result ≡ is DIGIT byte }
{
    match byte {
        48..=57 => true,
        _ => false,
    }
}

pub fn is_sign(byte: u8) -> bool
    ensures { result ≡ is SIGN byte }
{
    byte == b'+' || byte == b'-'
}

// A digit or a sign begins the next part.
pub fn is_next_duration(byte: u8) -> bool
    ensures { result ≡ is_next_duration byte }
{
    is_digit(byte) || is_sign(byte)
}

// Whether a byte is the letter, in any case: the two cases differ in one bit, and no byte but a letter comes to one with it.
pub fn same_letter(letter: u8, byte: u8) -> bool
    requires { is LETTER letter ≡ true }
    ensures { result ≡ same_letter letter byte }
{
    letter | CASE == byte | CASE
}
