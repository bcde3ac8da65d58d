// The digits that the writer writes.
ghost use Rattle.std.specs.Prelude.{◌≡◌, ◌+◌, ◌≤◌, ◌<◌, length};
ghost use Rattle.rules.specs.WriterAndShiftTotal.{decimals, no_trailing_zeros, whole_digits, fraction_digits};
ghost use Rattle.writing.specs.Laid.{laid};
ghost use Rattle.writing.specs.Digits.{Digits};

// A number, and how many decimal digits of it are written.
#[derive(Clone, Copy)]
pub struct Decimal {
    pub number: u64,
    pub count: usize,
}

// Digits of nanoseconds.
const NANOSECOND_DIGITS: usize = 9;

// Digits of seconds are counted in fours, with one division for four; and zeros at the end of nanoseconds go in threes, since most of
// what is typed is whole milliseconds.
const FOUR_DIGITS: u64 = 10_000;

const THREE_DIGITS: u32 = 1_000;

const SIX_DIGITS: u32 = 1_000_000;

// How many digits a number of at most four has. Zero has one.
fn few_digits(number: u64) -> usize
    requires { number < 10000 }
    ensures { Digits number result }
{
    match number {
        0..=9 => 1,
        10..=99 => 2,
        100..=999 => 3,
        _ => 4,
    }
}

// Seconds without needless zeros: as many digits as the number has, and one for zero.
pub fn whole(seconds: u64) -> Decimal
    ensures { (whole_digits seconds ≡ decimals result.count result.number) × (result.count ≤ 20) }
{
    let mut count = 0;
    let mut rest = seconds;
    while rest >= FOUR_DIGITS {
        rest = rest / FOUR_DIGITS;
        count += 4;
    }
    Decimal {
        number: seconds,
        count: count + few_digits(rest),
    }
}

// Digits less trailing zeros.
fn trimmed(digits: Decimal) -> Decimal
    ensures { (no_trailing_zeros (decimals digits.count digits.number) ≡ decimals result.count result.number) × (result.count ≤ digits.count) }
{
    let mut left = digits;
    while left.count > 0 && left.number % 10 == 0 {
        left.number = left.number / 10;
        left.count -= 1;
    }
    left
}

// Nine digits less trailing zeros.
pub fn fraction(nanoseconds: u32) -> Decimal
    ensures { (fraction_digits nanoseconds ≡ decimals result.count result.number) × (result.count ≤ 9) }
{
    if nanoseconds == 0 {
        return Decimal {
            number: 0,
            count: 0,
        };
    }
    if nanoseconds % THREE_DIGITS != 0 {
        return trimmed(Decimal {
            number: nanoseconds as u64,
            count: NANOSECOND_DIGITS,
        });
    }
    if nanoseconds % SIX_DIGITS != 0 {
        return trimmed(Decimal {
            number: (nanoseconds / THREE_DIGITS) as u64,
            count: NANOSECOND_DIGITS - 3,
        });
    }
    trimmed(Decimal {
        number: (nanoseconds / SIX_DIGITS) as u64,
        count: NANOSECOND_DIGITS - 6,
    })
}

// The digits at a place, from the last to the first.
pub fn put(digits: Decimal, buffer: &mut [u8], place: usize)
    requires { place + digits.count ≤ length buffer.old }
    ensures { buffer.new ≡ laid buffer.old place (decimals digits.count digits.number) }
{
    let mut rest = digits.number;
    for left in (0..digits.count).rev() {
        buffer[place + left] = b'0' + (rest % 10) as u8;
        rest = rest / 10;
    }
}
