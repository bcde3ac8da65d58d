// The entries: all that a user calls, and nothing else. Each promises its answer for all arguments, with what every lent byte or record
// then holds, and asks nothing. They check the card and hand on to the crates that do the work, which are inner.
#![tactic(auto)]

ghost use Rattle.std.specs.Prelude.{◌≡◌};
ghost use Rattle.rules.specs.SettingsAsWords.{card_of};
ghost use Rattle.rules.specs.WhatEveryEntryOwes.{part_answer, total_answer, write_answer, written_buffer, shift_answer, shifted_record};

use answers::refusal;
use card::table::card_check;
use reading::checked::{read_part_checked, read_total_checked};
use reading::ready::AcceptedCard;
use reading::shift::{kept, shifted_total_checked};
use rules::{Answer, Length, ShiftedTotal};

// One part of a text, from a place on.
pub fn read_part<'a>(
    settings: &[u64; 25],
    hall: &'a [u8],
    line: &'a [u8],
    numerals: &[u8],
    text: &[u8],
    place: usize,
) -> Answer
    ensures { result ≡ part_answer (card_of settings.now hall.now line.now numerals.now) text.now place }
{
    match card_check(settings, hall, line, numerals) {
        Err(cause) => refusal(cause),
        Ok(()) => {
            let card = AcceptedCard::without_indexes(settings, hall, line, numerals);
            read_part_checked(&card, text, place)
        }
    }
}

// A text's total.
pub fn read_total<'a>(
    settings: &[u64; 25],
    hall: &'a [u8],
    line: &'a [u8],
    numerals: &[u8],
    text: &[u8],
) -> Answer
    ensures { result ≡ total_answer (card_of settings.now hall.now line.now numerals.now) text.now }
{
    match card_check(settings, hall, line, numerals) {
        Err(cause) => refusal(cause),
        Ok(()) => {
            let card = AcceptedCard::without_indexes(settings, hall, line, numerals);
            read_total_checked(&card, text)
        }
    }
}

// A length, written at a place of a buffer.
pub fn write_length(length: Length, buffer: &mut [u8], place: usize) -> Answer
    ensures value { result ≡ write_answer length buffer.old place }
    ensures buffer_after { buffer.new ≡ written_buffer length buffer.old place }
{
    writing::writer::write_length(length, buffer, place)
}

// The shift total by value: what is handed back, and what a lent record has to hold afterwards.
pub fn shifted_total<'a>(
    total: Length,
    settings: &[u64; 25],
    hall: &'a [u8],
    line: &'a [u8],
    numerals: &[u8],
    text: &[u8],
) -> ShiftedTotal
    ensures { (result.answer ≡ shift_answer total (card_of settings.now hall.now line.now numerals.now) text.now) × (result.total ≡ shifted_record total (card_of settings.now hall.now line.now numerals.now) text.now) }
{
    match card_check(settings, hall, line, numerals) {
        Err(cause) => kept(total, cause),
        Ok(()) => {
            let card = AcceptedCard::without_indexes(settings, hall, line, numerals);
            shifted_total_checked(total, &card, text)
        }
    }
}

// The shift total: the record is lent, and added to in place. No other function takes a loan of a struct.
pub fn add_total<'a>(
    total: &mut Length,
    settings: &[u64; 25],
    hall: &'a [u8],
    line: &'a [u8],
    numerals: &[u8],
    text: &[u8],
) -> Answer
    ensures { (result ≡ shift_answer total.old (card_of settings.now hall.now line.now numerals.now) text.now) × (total.new ≡ shifted_record total.old (card_of settings.now hall.now line.now numerals.now) text.now) }
{
    let shifted = shifted_total(*total, settings, hall, line, numerals, text);
    *total = shifted.total;
    shifted.answer
}
