// The entries for C over unit tables and their indexes: an index made, checked, and changed with a row; and the lookups, whose four numbers C gets back where other
// entries hand back a position and a length.
#![tactic(auto)]

ghost use Rattle.std.specs.Prelude.{◌≡◌, []};
ghost use Rattle.rules.specs.SettingsAsWords.{settings_of};
ghost use Rattle.index.specs.TheSortedIndex.{indexed_of, make_answer, made_index, check_answer, replace_answer, replaced_table, replaced_index, units_of, lookup_answer, indexed_lookup_answer};
ghost use Rattle.c_words.specs.Words.{answer_words, found_words};

use c_words::{put_answer, put_found};
use table_entries::{check_index, look_up, look_up_indexed, make_index, replace_row};

#[unsafe(no_mangle)]
pub extern "C" fn herovinga_make_index(
    settings: &[u64; 25],
    table: &[u8],
    index: &mut [u8],
    answer: &mut [u64; 4],
) -> u8
    ensures value { result ≡ (make_answer (settings_of settings.now) table.now index.old).number }
    ensures answer_after { answer.new ≡ answer_words (make_answer (settings_of settings.now) table.now index.old) }
    ensures index_after { index.new ≡ made_index (settings_of settings.now) table.now index.old }
{
    let made = make_index(settings, table, index);
    put_answer(made, answer)
}

#[unsafe(no_mangle)]
pub extern "C" fn herovinga_replace_row(
    settings: &[u64; 25],
    table: &mut [u8],
    index: &mut [u8],
    row: usize,
    new: &[u8],
    answer: &mut [u64; 4],
) -> u8
    ensures value { result ≡ (replace_answer (settings_of settings.now) table.old index.old row new.now).number }
    ensures answer_after { answer.new ≡ answer_words (replace_answer (settings_of settings.now) table.old index.old row new.now) }
    ensures table_after { table.new ≡ replaced_table (settings_of settings.now) table.old index.old row new.now }
    ensures index_after { index.new ≡ replaced_index (settings_of settings.now) table.old index.old row new.now }
{
    let replaced = replace_row(settings, table, index, row, new);
    put_answer(replaced, answer)
}

#[unsafe(no_mangle)]
pub extern "C" fn herovinga_check_index(
    settings: &[u64; 25],
    table: &[u8],
    index: &[u8],
    answer: &mut [u64; 4],
) -> u8
    ensures value { result ≡ (check_answer (settings_of settings.now) table.now index.now).number }
    ensures answer_after { answer.new ≡ answer_words (check_answer (settings_of settings.now) table.now index.now) }
{
    put_answer(check_index(settings, table, index), answer)
}

#[unsafe(no_mangle)]
pub extern "C" fn herovinga_look_up(
    settings: &[u64; 25],
    hall: &[u8],
    line: &[u8],
    name: &[u8],
    found: &mut [u64; 4],
) -> u8
    ensures value { result ≡ (lookup_answer (units_of settings.now hall.now line.now) name.now).number }
    ensures found_after { found.new ≡ found_words (lookup_answer (units_of settings.now hall.now line.now) name.now) }
{
    put_found(look_up(settings, hall, line, name), found)
}

#[unsafe(no_mangle)]
pub extern "C" fn herovinga_look_up_indexed(
    settings: &[u64; 25],
    hall: &[u8],
    hall_index: &[u8],
    line: &[u8],
    line_index: &[u8],
    name: &[u8],
    found: &mut [u64; 4],
) -> u8
    ensures value { result ≡ (indexed_lookup_answer (indexed_of settings.now hall.now hall_index.now line.now line_index.now []) name.now).number }
    ensures found_after { found.new ≡ found_words (indexed_lookup_answer (indexed_of settings.now hall.now hall_index.now line.now line_index.now []) name.now) }
{
    put_found(
        look_up_indexed(settings, hall, hall_index, line, line_index, name),
        found,
    )
}
