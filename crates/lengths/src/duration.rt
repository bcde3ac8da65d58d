// Lengths: what a multiplied number comes to, and the sum. Both stay between MIN and MAX, and zero is always plus.
// Seconds and nanoseconds stay apart: as one number of nanoseconds a length does not fit a word.
ghost use Rattle.std.specs.Prelude.{◌≡◌, true, false, ◌+◌, ◌*◌, ◌-◌, ◌/◌, ◌%◌, ◌^◌, ◌<◌, ◌≤◌};
ghost use Rattle.rules.specs.ThePartOfTheCrateWeTake.{zero_length, largest, size, well_formed};
ghost use Rattle.rules.specs.Evaluation.{nanos, length_of, sum};
ghost use Rattle.lengths.specs.Wide.{value};

use crate::wide;
use crate::wide::Wide;
use rules::Length;

const NANOS_PER_SEC: u32 = 1_000_000_000;

const ATTOS_PER_NANO: u64 = 1_000_000_000;

// Seconds and nanoseconds without a sign; of two the seconds are compared first.
#[derive(Clone, Copy, PartialEq, Eq, PartialOrd, Ord)]
struct Size {
    seconds: u64,
    nanoseconds: u32,
    ghost proper: { nanoseconds < 10 ^ 9 },
}

pub fn zero() -> Length
    ensures { result ≡ zero_length }
{
    Length {
        negative: false,
        seconds: 0,
        nanoseconds: 0,
    }
}

// MAX, or MIN.
pub fn largest(negative: bool) -> Length
    ensures { result ≡ largest negative }
{
    Length {
        negative,
        seconds: u64::MAX,
        nanoseconds: NANOS_PER_SEC - 1,
    }
}

// Whether a record that somebody lends is a length. That its seconds fit, their type says.
pub fn well_formed(l: Length) -> bool
    ensures { result ≡ well_formed l }
{
    if l.negative && l.seconds == 0 && l.nanoseconds == 0 {
        return false;
    }
    l.nanoseconds < NANOS_PER_SEC
}

// Zero loses its minus here.
fn signed(negative: bool, size: Size) -> Length
    ensures { result ≡ length_of negative (size.seconds * 10 ^ 9 + size.nanoseconds) }
{
    if size.seconds == 0 && size.nanoseconds == 0 {
        return zero();
    }
    Length {
        negative,
        seconds: size.seconds,
        nanoseconds: size.nanoseconds,
    }
}

// The nanoseconds may hold one second more, and then have what is left after it: a test and a difference, and no division.
// Zero has its plus already.
fn limited(negative: bool, seconds: u64, extra: u64, nanoseconds: u32) -> Length
    requires { (nanoseconds < 2 * 10 ^ 9) × ((seconds + extra) * 10 ^ 9 + nanoseconds ≡ 0 → negative ≡ false) }
    ensures { result ≡ length_of negative ((seconds + extra) * 10 ^ 9 + nanoseconds) }
{
    let Some(sum) = seconds.checked_add(extra) else {
        return largest(negative);
    };
    if nanoseconds < NANOS_PER_SEC {
        return Length {
            negative,
            seconds: sum,
            nanoseconds,
        };
    }
    let Some(sum) = sum.checked_add(1) else {
        return largest(negative);
    };
    Length {
        negative,
        seconds: sum,
        nanoseconds: nanoseconds - NANOS_PER_SEC,
    }
}

// So many attoseconds, with what is below a nanosecond cut off.
fn cut_word(attos: u64) -> Size
    ensures { (result.seconds ≡ attos / 10 ^ 9 / 10 ^ 9) × (result.nanoseconds ≡ attos / 10 ^ 9 % 10 ^ 9) }
{
    let nanos = attos / ATTOS_PER_NANO;
    let second = NANOS_PER_SEC as u64;
    Size {
        seconds: nanos / second,
        nanoseconds: (nanos % second) as u32,
    }
}

// The same of two words: the first division cuts, the second parts seconds from nanoseconds.
fn cut_words(attos: Wide) -> Size
    requires { value attos < 2 ^ 64 * 10 ^ 18 }
    ensures { (result.seconds ≡ value attos / 10 ^ 9 / 10 ^ 9) × (result.nanoseconds ≡ value attos / 10 ^ 9 % 10 ^ 9) }
{
    let nanos = wide::divide_by_nanos(attos);
    let parts = wide::divide_by_nanos(nanos.quotient);
    let seconds = parts.quotient;
    Size {
        seconds: seconds.low,
        nanoseconds: parts.remainder as u32,
    }
}

// The coefficient times seconds and attoseconds, and only then cut to nanoseconds. Most units have the coefficient 1, most
// numbers are whole, and most products fit one word: each of these has a short way. With no whole seconds nothing is
// added, and with some the length is not zero. The sign of the coefficient is in `is_negative` already.
pub fn calculate_duration(is_negative: bool, seconds: u64, attos: u64, coefficient: u64) -> Length
    requires { attos < 10 ^ 18 }
    ensures { result ≡ length_of is_negative (nanos coefficient (seconds * 10 ^ 18 + attos)) }
{
    if coefficient == 1 {
        let size = Size {
            seconds,
            nanoseconds: (attos / ATTOS_PER_NANO) as u32,
        };
        return signed(is_negative, size);
    }
    if coefficient == 0 {
        return zero();
    }
    let most = u64::MAX / coefficient;
    if most < seconds {
        return largest(is_negative);
    }
    let whole = coefficient * seconds;
    if attos == 0 {
        let size = Size {
            seconds: whole,
            nanoseconds: 0,
        };
        return signed(is_negative, size);
    }
    let size = if attos <= most {
        cut_word(coefficient * attos)
    } else {
        cut_words(wide::product(coefficient, attos))
    };
    if whole == 0 {
        return signed(is_negative, size);
    }
    limited(is_negative, whole, size.seconds, size.nanoseconds)
}

// What is left of the longer: where its nanoseconds do not reach, it lends them a second.
fn subtract(negative: bool, longer: Size, shorter: Size) -> Length
    requires { shorter.seconds * 10 ^ 9 + shorter.nanoseconds ≤ longer.seconds * 10 ^ 9 + longer.nanoseconds }
    ensures { result ≡ length_of negative (longer.seconds * 10 ^ 9 + longer.nanoseconds - (shorter.seconds * 10 ^ 9 + shorter.nanoseconds)) }
{
    let seconds = longer.seconds - shorter.seconds;
    let left = if shorter.nanoseconds <= longer.nanoseconds {
        Size {
            seconds,
            nanoseconds: longer.nanoseconds - shorter.nanoseconds,
        }
    } else {
        Size {
            seconds: seconds - 1,
            nanoseconds: NANOS_PER_SEC - shorter.nanoseconds + longer.nanoseconds,
        }
    };
    signed(negative, left)
}

// The sum, which stops at MIN and MAX.
pub fn saturating_add(a: Length, b: Length) -> Length
    requires { (well_formed a ≡ true) × (well_formed b ≡ true) }
    ensures { result ≡ sum a b }
{
    if a.negative == b.negative {
        return limited(
            a.negative,
            a.seconds,
            b.seconds,
            a.nanoseconds + b.nanoseconds,
        );
    }
    let first = Size {
        seconds: a.seconds,
        nanoseconds: a.nanoseconds,
    };
    let second = Size {
        seconds: b.seconds,
        nanoseconds: b.nanoseconds,
    };
    if second <= first {
        subtract(a.negative, first, second)
    } else {
        subtract(b.negative, second, first)
    }
}
