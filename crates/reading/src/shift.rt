// A length added to by a text's total, under a card that has been checked.
ghost use Rattle.std.specs.Prelude.{◌≡◌};
ghost use Rattle.rules.specs.NumbersHandedBack.{refusal};
ghost use Rattle.rules.specs.WhatEveryEntryOwes.{add_total, shift_answer, shifted_record};
ghost use Rattle.reading.specs.Meant.{meant};

use crate::checked::read_total;
use crate::ready::AcceptedCard;
use answers::{done, refusal};
use lengths::duration::{saturating_add, well_formed};
use rules::{Length, Refusal, ShiftedTotal};

// A refusal leaves the total as it was.
pub fn kept(total: Length, cause: Refusal) -> ShiftedTotal
    ensures { (result.answer ≡ refusal cause) × (result.total ≡ total) }
{
    ShiftedTotal {
        answer: refusal(cause),
        total,
    }
}

// A malformed total comes before a text that is too long.
fn added(total: Length, card: &AcceptedCard, text: &[u8]) -> Result<Length, Refusal>
    ensures { result ≡ add_total total (meant card.now.ready) text.now }
{
    if !well_formed(total) {
        return Err(Refusal::Malformed);
    }
    let length = read_total(card, text)?;
    Ok(saturating_add(total, length))
}

pub fn shifted_total_checked(total: Length, card: &AcceptedCard, text: &[u8]) -> ShiftedTotal
    ensures { (result.answer ≡ shift_answer total (meant card.now.ready) text.now) × (result.total ≡ shifted_record total (meant card.now.ready) text.now) }
{
    match added(total, card, text) {
        Ok(sum) => ShiftedTotal {
            answer: done(text.len(), sum),
            total: sum,
        },
        Err(cause) => kept(total, cause),
    }
}
