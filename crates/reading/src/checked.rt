// One part, and a text's total, under a card that has been checked: whoever reads many texts under one card checks it once.
ghost use Rattle.std.specs.Prelude.{◌≡◌};
ghost use Rattle.rules.specs.WhatEveryEntryOwes.{read_part, part_answer, read_total, total_answer};
ghost use Rattle.reading.specs.Meant.{meant};

use crate::part::parse_part;
use crate::ready::AcceptedCard;
use crate::total::parse_multiple;
use answers::{done, refusal};
use rules::{Answer, LONGEST_TEXT, Length, Reading, Refusal};

fn read_part(card: &AcceptedCard, text: &[u8], place: usize) -> Result<Reading, Refusal>
    ensures { result ≡ read_part (meant card.now.ready) text.now place }
{
    if text.len() > LONGEST_TEXT {
        return Err(Refusal::TextTooLong);
    }
    if place > text.len() {
        return Err(Refusal::Beyond(place));
    }
    parse_part(&card.ready, text, place)
}

pub fn read_part_checked(card: &AcceptedCard, text: &[u8], place: usize) -> Answer
    ensures { result ≡ part_answer (meant card.now.ready) text.now place }
{
    match read_part(card, text, place) {
        Ok(reading) => done(reading.next, reading.length),
        Err(cause) => refusal(cause),
    }
}

pub fn read_total(card: &AcceptedCard, text: &[u8]) -> Result<Length, Refusal>
    ensures { result ≡ read_total (meant card.now.ready) text.now }
{
    if text.len() > LONGEST_TEXT {
        return Err(Refusal::TextTooLong);
    }
    parse_multiple(&card.ready, text)
}

pub fn read_total_checked(card: &AcceptedCard, text: &[u8]) -> Answer
    ensures { result ≡ total_answer (meant card.now.ready) text.now }
{
    match read_total(card, text) {
        Ok(length) => done(text.len(), length),
        Err(cause) => refusal(cause),
    }
}
