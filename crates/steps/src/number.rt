// Steps 2 and 3: the digits before a point, and those after it.
ghost use Rattle.std.specs.Prelude.{◌≡◌};
ghost use Rattle.std.proofs.Math.Seq.{slice};
ghost use Rattle.rules.specs.SettingsAsWords.{settings_of};
ghost use Rattle.rules.specs.Common.{sees};
ghost use Rattle.rules.specs.SettingsAndUnitTable.{POINT, is};
ghost use Rattle.rules.specs.ReadingOnePart.{fraction_step, number_step};
ghost use Rattle.value.specs.Numbers.{summed};
ghost use Rattle.steps.specs.Sums.{sums};

use rules::{Number, Refusal, Span};
use settings::fields::fractions;
use value::digits::{parse_digits_strip_zeros, sum_digits};

// What steps 2 and 3 find, and the sum of the digits, which is all of their number unless they are many.
#[derive(Clone, Copy)]
pub struct SummedNumber {
    pub typed: Number,
    pub number: u64,
}

fn is_point(text: &[u8], place: usize) -> bool
    ensures { result ≡ sees (is POINT) text.now place }
{
    if text.len() <= place {
        return false;
    }
    text[place] == b'.'
}

// A point may have no digits after it where there are some before it.
fn parse_number_fraction(
    settings: &[u64; 25],
    text: &[u8],
    any_whole: bool,
    whole: Span,
    so_far: u64,
    place: usize,
) -> Result<SummedNumber, Refusal>
    requires { so_far ≡ summed 0 (slice whole.start whole.end text.now) }
    ensures { result ≡ sums text.now (fraction_step (settings_of settings.now) text.now any_whole whole place) }
{
    if !is_point(text, place) {
        return Ok(SummedNumber {
            typed: Number {
                whole,
                fract: Span {
                    start: place,
                    end: place,
                },
                next: place,
            },
            number: so_far,
        });
    }
    if !fractions(settings) {
        return Err(Refusal::FractionOff(place));
    }
    let after = place + 1;
    let digits = sum_digits(so_far, text, after);
    let next = digits.end;
    if next == after {
        if !any_whole {
            return Err(Refusal::FractionEmpty(place));
        }
    }
    Ok(SummedNumber {
        typed: Number {
            whole,
            fract: Span {
                start: after,
                end: next,
            },
            next,
        },
        number: digits.number,
    })
}

pub fn parse_number(
    settings: &[u64; 25],
    text: &[u8],
    place: usize,
) -> Result<SummedNumber, Refusal>
    ensures { result ≡ sums text.now (number_step (settings_of settings.now) text.now place) }
{
    let digits = parse_digits_strip_zeros(text, place);
    let whole = digits.whole;
    let end = whole.end;
    parse_number_fraction(settings, text, place < end, whole, digits.number, end)
}
