// One part: read to its end, connection included, then evaluated, then tested for a forbidden negative.
ghost use Rattle.std.specs.Prelude.{◌≡◌};
ghost use Rattle.rules.specs.SettingsAsWords.{settings_of};
ghost use Rattle.rules.specs.Evaluation.{allowed, part_reading};
ghost use Rattle.reading.specs.Meant.{meant};
ghost use Rattle.reading.specs.Coded.{codes};
ghost use Rattle.reading.specs.Typed.{typed_part};

use crate::ready::ReadyCard;
use crate::start::ready_start;
use crate::typed::{SummedPart, unsigned_part};
use rules::{Length, Reading, Refusal};
use settings::fields::negatives;
use steps::connection::try_consume_connection;
use value::evaluation::evaluate;

// A part up to its connection.
fn typed_part(card: &ReadyCard, text: &[u8], place: usize) -> Result<SummedPart, Refusal>
    ensures { result ≡ codes text.now (typed_part (meant card.now) text.now place) }
{
    let start = ready_start(card, text, place)?;
    unsigned_part(card, text, start)
}

// A negative length is refused while negatives are off.
fn allowed(
    settings: &[u64; 25],
    place: usize,
    next: usize,
    length: Length,
) -> Result<Reading, Refusal>
    ensures { result ≡ allowed (settings_of settings.now) place next length }
{
    if length.negative && !negatives(settings) {
        return Err(Refusal::NegativeForbidden(place));
    }
    Ok(Reading { length, next })
}

pub fn parse_part(card: &ReadyCard, text: &[u8], place: usize) -> Result<Reading, Refusal>
    ensures { result ≡ part_reading (meant card.now) text.now place }
{
    let typed = typed_part(card, text, place)?;
    let next = try_consume_connection(card.settings, text, typed.next)?;
    let repr = typed.repr?;
    let length = evaluate(text, repr, typed.number);
    allowed(card.settings, place, next, length)
}
