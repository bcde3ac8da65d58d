// The entries over unit tables and their indexes: an index made, checked, and changed with a row, of one table by itself; and a name looked up in both
// tables, row by row or through their indexes. Each promises its answer for all arguments and asks nothing. They load no reader.
#![tactic(auto)]

ghost use Rattle.std.specs.Prelude.{◌≡◌, []};
ghost use Rattle.rules.specs.ThePartOfTheCrateWeTake.{zero_length};
ghost use Rattle.rules.specs.NumbersHandedBack.{refused, done};
ghost use Rattle.rules.specs.SettingsAndUnitTable.{rows};
ghost use Rattle.rules.specs.SettingsAsWords.{settings_of};
ghost use Rattle.index.specs.declared.Searched.{Searched};
ghost use Rattle.index.specs.TheSortedIndex.{indexed_of, make_answer, made_index, check_answer, replace_answer, replaced_table, replaced_index, looked_up, units_of, lookup_answer, indexed_lookup_answer};

use answers::{done, refusal};
use card::table::card_check;
use index::LookedUp;
use lengths::duration::zero;
use lookup::both_tables::{NEITHER, UnitTables};
use lookup::names::first_word;
use rows::fields::ROW_SIZE;
use rules::{Answer, Refusal};
use sorted::allowed::{may_make, may_replace};
use sorted::checked::{indexed_check, table_and_index_check};
use sorted::made::make;
use sorted::replaced::put_in;

// What an entry over one table ends with: the number of its rows.
pub fn rows_done(table: &[u8]) -> Answer
    ensures { result ≡ done (rows table.now) zero_length }
{
    done(table.len() / ROW_SIZE, zero())
}

// The index of a table, made into a lent one of its length: written whole, or not at all.
pub fn make_index(settings: &[u64; 25], table: &[u8], index: &mut [u8]) -> Answer
    ensures value { result ≡ make_answer (settings_of settings.now) table.now index.old }
    ensures index_after { index.new ≡ made_index (settings_of settings.now) table.now index.old }
{
    match may_make(settings, table, index) {
        Err(cause) => refusal(cause),
        Ok(()) => {
            make(table, index);
            rows_done(table)
        }
    }
}

// One table and its index, checked.
pub fn check_index(settings: &[u64; 25], table: &[u8], index: &[u8]) -> Answer
    ensures { result ≡ check_answer (settings_of settings.now) table.now index.now }
{
    match table_and_index_check(settings, table, index) {
        Err(cause) => refusal(cause),
        Ok(()) => rows_done(table),
    }
}

// A row of a table replaced, and the index changed with it: both, or neither.
pub fn replace_row(
    settings: &[u64; 25],
    table: &mut [u8],
    index: &mut [u8],
    row: usize,
    new: &[u8],
) -> Answer
    ensures value { result ≡ replace_answer (settings_of settings.now) table.old index.old row new.now }
    ensures table_after { table.new ≡ replaced_table (settings_of settings.now) table.old index.old row new.now }
    ensures index_after { index.new ≡ replaced_index (settings_of settings.now) table.old index.old row new.now }
{
    match may_replace(settings, table, index, row, new) {
        Err(cause) => refusal(cause),
        Ok(()) => {
            put_in(table, index, row, new);
            rows_done(table)
        }
    }
}

// A refusal has a number and a position, and zeros for what was not looked for.
fn not_looked_up(cause: Refusal) -> LookedUp
    ensures { (in_line in_hall : Searched) → result ≡ looked_up (refused cause) in_line in_hall }
{
    let answer = refusal(cause);
    LookedUp {
        number: answer.number,
        position: answer.position,
        table: NEITHER,
        row: 0,
        compared: 0,
    }
}

// A name looked up row by row. Numerals are no part of it, and there are no indexes: an empty part of the name stands for each.
pub fn look_up(settings: &[u64; 25], hall: &[u8], line: &[u8], name: &[u8]) -> LookedUp
    ensures { result ≡ lookup_answer (units_of settings.now hall.now line.now) name.now }
{
    let none = &name[..0];
    match card_check(settings, hall, line, none) {
        Err(cause) => not_looked_up(cause),
        Ok(()) => {
            let row_by_row = UnitTables {
                hall,
                hall_index: none,
                line,
                line_index: none,
            };
            row_by_row.looked_up(name, first_word(name))
        }
    }
}

// A name looked up through the indexes.
pub fn look_up_indexed(
    settings: &[u64; 25],
    hall: &[u8],
    hall_index: &[u8],
    line: &[u8],
    line_index: &[u8],
    name: &[u8],
) -> LookedUp
    ensures { result ≡ indexed_lookup_answer (indexed_of settings.now hall.now hall_index.now line.now line_index.now []) name.now }
{
    let none = &name[..0];
    match indexed_check(settings, hall, hall_index, line, line_index, none) {
        Err(cause) => not_looked_up(cause),
        Ok(()) => {
            let indexed = UnitTables {
                hall,
                hall_index,
                line,
                line_index,
            };
            indexed.looked_up(name, first_word(name))
        }
    }
}
