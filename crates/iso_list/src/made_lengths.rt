// The lengths that are written, made by a fixed rule so that they need not be stored.
ghost use Rattle.std.specs.Prelude.{◌≤◌};

use rules::Length;

pub const LENGTHS: u64 = 3_200;

// No number above it can be followed by one more zero.
const MOST_BEFORE_A_ZERO: u64 = 1_844_674_407_370_955_161;

// A digit and so many zeros.
fn with_zeros(digit: u64, zeros: u64) -> u64 {
    (0..zeros).fold(digit, |number, _| number % MOST_BEFORE_A_ZERO * 10)
}

// A number in odd turns, else 0.
fn in_turn(turn: u64, number: u64) -> u64
    ensures { result ≤ number }
{
    if turn % 2 == 1 { number } else { 0 }
}

fn length_of(seconds: u64, nanoseconds: u64) -> Length {
    Length {
        negative: false,
        seconds,
        nanoseconds: (nanoseconds % 1_000_000_000) as u32,
    }
}

// Hours, minutes, seconds and nanoseconds that are there or not, each in its own turns.
fn composed(number: u64) -> Length {
    let turn = number % LENGTHS;
    let some = turn % 59 + 1;
    let hours = in_turn(turn, turn + 1);
    let minutes = in_turn(turn / 2, some);
    let seconds = in_turn(turn / 4, some);
    let nanoseconds = in_turn(turn / 8, with_zeros(1, turn / 16 % 9));
    length_of(hours * 3_600 + minutes * 60 + seconds, nanoseconds)
}

// The lengths by number: single digits behind the point, powers of ten, both sides of each minute and hour, components that are there or
// not, the largest ones, and others.
pub fn nth(number: u64) -> Length {
    let n = number % LENGTHS;
    let turn = n / 8;
    match n % 8 {
        0 => length_of(0, with_zeros(turn / 9 % 9 + 1, turn % 9)),
        1 => length_of(with_zeros(1, turn % 20), turn % 3 * 499_999_999),
        2 => length_of(turn / 4 * 60 + 58 + turn % 4, turn % 2 * 999_999_999),
        3 => length_of(
            turn / 4 * 3_600 + 3_598 + turn % 4,
            turn / 4 % 2 * 999_999_999,
        ),
        4 => composed(turn),
        5 => length_of(
            18_446_744_073_709_551_615 - turn * 1_801,
            999_999_999 - in_turn(turn, turn),
        ),
        6 => length_of(n % 1_000 * 18_046_744_073_709_551, n * 271_828),
        _ => length_of(n * 7_919 % 100_000, n * 577_215),
    }
}
