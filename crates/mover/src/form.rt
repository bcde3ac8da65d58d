// A stored line by its digits: two for the name's length, two for each byte of the room that the name has, those of what stands behind it, and a newline.
ghost use Rattle.std.specs.Prelude.{◌≡◌, ◌+◌, ◌*◌, ◌≤◌, ◌<◌, length, take, drop};
ghost use Rattle.rules.specs.SettingsAndUnitTable.{name_room};
ghost use Rattle.moves.specs.Laws.Digits.{told};

use stored::{digit_value, line_size};

// The room that the rows of a form have for a name, by which the form is told.
#[derive(Clone, Copy)]
pub struct Room {
    pub bytes: usize,
    pub ghost in_a_row: { bytes ≤ name_room },
}

impl Room {
    ghost use Rattle.stored.specs.Lines.{line_size_in};

    // Bytes of a line.
    pub fn line_size(self) -> usize
        ensures { result ≡ line_size_in self.bytes }
    {
        line_size(self.bytes)
    }
}

pub const ZERO_DIGIT: u8 = 48;

// Digits of the name's length and of so many bytes behind it.
pub fn digits_up_to(bytes: usize) -> usize
    requires { bytes ≤ name_room }
    ensures { result ≡ 2 * (1 + bytes) }
{
    2 * (1 + bytes)
}

// The name's length, as the first two digits tell it.
pub fn name_size(line: &[u8]) -> usize
    requires { 1 < length line.now }
    ensures { result ≡ told line.now }
{
    let high = digit_value(line[0]) as usize;
    let low = digit_value(line[1]) as usize;
    high * 16 + low
}

// A line's length from a place on, or what is left there.
pub fn line_at(source: &[u8], at: usize, size: usize) -> &[u8]
    requires { at ≤ length source.now }
    ensures { result.now ≡ take size (drop at source.now) }
{
    let rest = &source[at..];
    &rest[..size.min(rest.len())]
}
