// The entries for C that read a text through an index beside each unit table. C passes an index as it passes a table.
#![tactic(auto)]

ghost use Rattle.std.specs.Prelude.{◌≡◌};
ghost use Rattle.index.specs.TheSortedIndex.{indexed_of, indexed_part_answer, indexed_total_answer, indexed_shift_answer};
ghost use Rattle.c_words.specs.Words.{length_of, answer_words, indexed_shifted_words};

use c_words::{length_of, put_answer, put_total};
use index_entries::{read_part_indexed, read_total_indexed, shifted_total_indexed};

#[unsafe(no_mangle)]
pub extern "C" fn herovinga_read_part_indexed<'a>(
    settings: &[u64; 25],
    hall: &'a [u8],
    hall_index: &[u8],
    line: &'a [u8],
    line_index: &[u8],
    numerals: &[u8],
    text: &[u8],
    place: usize,
    answer: &mut [u64; 4],
) -> u8
    ensures value { result ≡ (indexed_part_answer (indexed_of settings.now hall.now hall_index.now line.now line_index.now numerals.now) text.now place).number }
    ensures answer_after { answer.new ≡ answer_words (indexed_part_answer (indexed_of settings.now hall.now hall_index.now line.now line_index.now numerals.now) text.now place) }
{
    let part = read_part_indexed(
        settings, hall, hall_index, line, line_index, numerals, text, place,
    );
    put_answer(part, answer)
}

#[unsafe(no_mangle)]
pub extern "C" fn herovinga_read_total_indexed<'a>(
    settings: &[u64; 25],
    hall: &'a [u8],
    hall_index: &[u8],
    line: &'a [u8],
    line_index: &[u8],
    numerals: &[u8],
    text: &[u8],
    answer: &mut [u64; 4],
) -> u8
    ensures value { result ≡ (indexed_total_answer (indexed_of settings.now hall.now hall_index.now line.now line_index.now numerals.now) text.now).number }
    ensures answer_after { answer.new ≡ answer_words (indexed_total_answer (indexed_of settings.now hall.now hall_index.now line.now line_index.now numerals.now) text.now) }
{
    let total = read_total_indexed(settings, hall, hall_index, line, line_index, numerals, text);
    put_answer(total, answer)
}

// On a refusal nothing is stored, as in herovinga_add_total.
#[unsafe(no_mangle)]
pub extern "C" fn herovinga_add_total_indexed<'a>(
    total: &mut [u64; 3],
    settings: &[u64; 25],
    hall: &'a [u8],
    hall_index: &[u8],
    line: &'a [u8],
    line_index: &[u8],
    numerals: &[u8],
    text: &[u8],
    answer: &mut [u64; 4],
) -> u8
    ensures value { result ≡ (indexed_shift_answer (length_of total.old) (indexed_of settings.now hall.now hall_index.now line.now line_index.now numerals.now) text.now).number }
    ensures answer_after { answer.new ≡ answer_words (indexed_shift_answer (length_of total.old) (indexed_of settings.now hall.now hall_index.now line.now line_index.now numerals.now) text.now) }
    ensures total_after { total.new ≡ indexed_shifted_words total.old (indexed_of settings.now hall.now hall_index.now line.now line_index.now numerals.now) text.now }
{
    let so_far = length_of(total);
    let shifted = shifted_total_indexed(
        so_far, settings, hall, hall_index, line, line_index, numerals, text,
    );
    if shifted.answer.number == 0 {
        put_total(shifted.total, total);
    }
    put_answer(shifted.answer, answer)
}
