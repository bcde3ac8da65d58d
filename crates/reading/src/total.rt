// A text's total: its parts one after another, each sum clamped in order.
ghost use Rattle.std.specs.Prelude.{◌≡◌};
ghost use Rattle.rules.specs.Evaluation.{total};
ghost use Rattle.reading.specs.Meant.{meant};

use crate::part::parse_part;
use crate::ready::ReadyCard;
use lengths::duration::{saturating_add, zero};
use rules::{Length, Refusal};

pub fn parse_multiple(card: &ReadyCard, text: &[u8]) -> Result<Length, Refusal>
    ensures { result ≡ total (meant card.now) text.now }
{
    let mut sum = zero();
    let mut place = 0;
    loop {
        let reading = parse_part(card, text, place)?;
        sum = saturating_add(sum, reading.length);
        if text.len() <= reading.next {
            return Ok(sum);
        }
        place = reading.next;
    }
}
