// From what was typed to a length: the number moved by its powers of ten, multiplied and rounded down. A spoken
// number has no digits in the text, and counts 1.
ghost use Rattle.std.specs.Prelude.{◌≡◌};
ghost use Rattle.rules.specs.Evaluation.{digits_of};
ghost use Rattle.value.specs.Numbers.{Counts, Spans, attos_of, evaluate_counted, shifted_of};

use crate::number::{Digits, Shifted};
use lengths::duration::{calculate_duration, largest, zero};
use rules::{DurationRepr, Length};

// The number times its powers of ten, those of the multiplier and the typed one. Most numbers have no exponent.
fn shift_typed(text: &[u8], d: DurationRepr, number: u64) -> Option<Shifted>
    requires spans { Spans text.now d.whole d.fract }
    requires counts { Counts number (digits_of text.now d.whole d.fract) }
    ensures { result ≡ shifted_of (attos_of text.now d number) }
{
    let digits = Digits {
        whole: &text[d.whole.start..d.whole.end],
        fract: &text[d.fract.start..d.fract.end],
    };
    let mut up = d.multiplier.up as u32;
    let mut down = d.multiplier.down as u32;
    let typed = d.exponent.power as u32;
    if 0 < typed {
        if d.exponent.negative {
            down += typed;
        } else {
            up += typed;
        }
    }
    digits.shift(number, up, down)
}

// A coefficient of zero makes any number zero, also one that is too large.
pub fn evaluate(text: &[u8], d: DurationRepr, number: u64) -> Length
    requires spans { Spans text.now d.whole d.fract }
    requires counts { Counts number (digits_of text.now d.whole d.fract) }
    ensures { result ≡ evaluate_counted text.now d number }
{
    if d.infinite {
        return largest(d.negative);
    }
    let coefficient = d.multiplier.coefficient;
    if coefficient == 0 {
        return zero();
    }
    let negative = d.negative != d.multiplier.negative;
    let Some(shifted) = shift_typed(text, d, number) else {
        return largest(negative);
    };
    calculate_duration(negative, shifted.seconds, shifted.attos, coefficient)
}
