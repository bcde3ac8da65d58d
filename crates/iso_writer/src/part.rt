// A component of a length.
ghost use Rattle.std.specs.Prelude.{◌≤◌};

use writing::digits::Decimal;

// A component that is written: the digits of its number, those of its decimals, and the letter of its unit. It has no more digits than
// a number of 64 bits and nanoseconds have.
#[derive(Clone, Copy)]
pub struct Part {
    pub whole: Decimal,
    pub decimals: Decimal,
    pub letter: u8,
    ghost small: { (whole.count ≤ 20) × (decimals.count ≤ 9) },
}
