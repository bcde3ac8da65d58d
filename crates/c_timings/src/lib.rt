// The four entries of document 01. C passes a slice as pointer and length, and an array by its pointer.
#![tactic(auto)]

ghost use Rattle.std.specs.Prelude.{◌≡◌};
ghost use Rattle.rules.specs.SettingsAsWords.{card_of};
ghost use Rattle.rules.specs.WhatEveryEntryOwes.{part_answer, total_answer, write_answer, written_buffer, shift_answer};
ghost use Rattle.c_words.specs.Words.{length_of, answer_words, shifted_words};

use c_words::{length_of, put_answer, put_total};
use entries::{read_part, read_total, shifted_total, write_length};

#[unsafe(no_mangle)]
pub extern "C" fn herovinga_read_part<'a>(
    settings: &[u64; 25],
    hall: &'a [u8],
    line: &'a [u8],
    numerals: &[u8],
    text: &[u8],
    place: usize,
    answer: &mut [u64; 4],
) -> u8
    ensures value { result ≡ (part_answer (card_of settings.now hall.now line.now numerals.now) text.now place).number }
    ensures answer_after { answer.new ≡ answer_words (part_answer (card_of settings.now hall.now line.now numerals.now) text.now place) }
{
    put_answer(
        read_part(settings, hall, line, numerals, text, place),
        answer,
    )
}

#[unsafe(no_mangle)]
pub extern "C" fn herovinga_read_total<'a>(
    settings: &[u64; 25],
    hall: &'a [u8],
    line: &'a [u8],
    numerals: &[u8],
    text: &[u8],
    answer: &mut [u64; 4],
) -> u8
    ensures value { result ≡ (total_answer (card_of settings.now hall.now line.now numerals.now) text.now).number }
    ensures answer_after { answer.new ≡ answer_words (total_answer (card_of settings.now hall.now line.now numerals.now) text.now) }
{
    put_answer(read_total(settings, hall, line, numerals, text), answer)
}

#[unsafe(no_mangle)]
pub extern "C" fn herovinga_write(
    length: &[u64; 3],
    buffer: &mut [u8],
    place: usize,
    answer: &mut [u64; 4],
) -> u8
    ensures value { result ≡ (write_answer (length_of length.now) buffer.old place).number }
    ensures answer_after { answer.new ≡ answer_words (write_answer (length_of length.now) buffer.old place) }
    ensures buffer_after { buffer.new ≡ written_buffer (length_of length.now) buffer.old place }
{
    let written = write_length(length_of(length), buffer, place);
    put_answer(written, answer)
}

// The total goes by value: entries::add_total takes a reference to a record, and what C lends is words. On a refusal nothing is stored, since the words need not be those that a length has, as 5 for a minus.
#[unsafe(no_mangle)]
pub extern "C" fn herovinga_add_total<'a>(
    total: &mut [u64; 3],
    settings: &[u64; 25],
    hall: &'a [u8],
    line: &'a [u8],
    numerals: &[u8],
    text: &[u8],
    answer: &mut [u64; 4],
) -> u8
    ensures value { result ≡ (shift_answer (length_of total.old) (card_of settings.now hall.now line.now numerals.now) text.now).number }
    ensures answer_after { answer.new ≡ answer_words (shift_answer (length_of total.old) (card_of settings.now hall.now line.now numerals.now) text.now) }
    ensures total_after { total.new ≡ shifted_words total.old (card_of settings.now hall.now line.now numerals.now) text.now }
{
    let shifted = shifted_total(length_of(total), settings, hall, line, numerals, text);
    if shifted.answer.number == 0 {
        put_total(shifted.total, total);
    }
    put_answer(shifted.answer, answer)
}
