// A row of a table replaced, and its index changed with it.
ghost use Rattle.std.specs.Prelude.{◌≡◌, true, false, ℕ, ◌<◌, length, get_or};
ghost use Rattle.rules.specs.NumbersHandedBack.{got};
ghost use Rattle.rules.specs.SettingsAsWords.{settings_of};
ghost use Rattle.rules.specs.SettingsAndUnitTable.{settings_check, row_size, rows, row, table_check};
ghost use Rattle.rows.specs.Named.{padded};
ghost use Rattle.index.specs.TheSortedIndex.{with_row, may_replace, index_of};
ghost use Rattle.index.specs.Laws.Right.{Own, Right};
ghost use Rattle.sorted.specs.Replacing.{Elsewhere, NotElsewhere, Stands, Moved};

use crate::made::sift_down;
use card::row::same_name;
use card::table::{rows_found, unit_rule};
use rows::fields::{ROW_SIZE, row_at};

// The new row by itself is tested as a table of one row.
const ONE_ROW: usize = 1;

// Whether another row than this one has the new row's name.
fn named_elsewhere(table: &[u8], i: usize, new: &[u8]) -> bool
    requires by_index { (j : ℕ) → j < rows table.now → padded (row table.now j) ≡ true }
    requires len { (length new.now ≡ row_size) × (padded new.now ≡ true) }
    ensures elsewhere { result ≡ true → Elsewhere table.now i new.now }
    ensures not_elsewhere { result ≡ false → NotElsewhere table.now i new.now }
{
    for j in 0..table.len() / ROW_SIZE {
        if j != i && same_name(row_at(table, j), new) {
            return true;
        }
    }
    false
}

// Whether the table would pass with the new row. All others have passed, so that only the new one is tested, and its name held against theirs.
pub fn row_fits(settings: &[u64; 25], table: &[u8], i: usize, new: &[u8]) -> bool
    requires settings_value { (settings_check (settings_of settings.now) ≡ got tt) × (table_check (settings_of settings.now) table.now ≡ got tt) }
    requires i_bound { i < rows table.now }
    ensures { result ≡ may_replace (settings_of settings.now) table.now i new.now }
{
    if new.len() != ROW_SIZE {
        return false;
    }
    rows_found(ONE_ROW, unit_rule(settings), false, new).is_ok() && !named_elsewhere(table, i, new)
}

// The new row's bytes, in the place of the old one's.
fn put_row(table: &mut [u8], i: usize, new: &[u8])
    requires { (i < rows table.old) × (length new.now ≡ row_size) }
    ensures { table.new ≡ with_row table.old i new.now }
{
    let start = ROW_SIZE * i;
    table[start..start + ROW_SIZE].copy_from_slice(new);
}

// The entry at which a row stands.
fn place_of(index: &[u8], row: usize) -> usize
    requires { Stands index.now row }
    ensures { (result < length index.now) × (get_or index.now result 0 ≡ row) }
{
    index
        .iter()
        .position(|entry| *entry as usize == row)
        .unwrap()
}

// The entry at this place put behind all others, which stay in their order. A loop: the library's rotation calls the C library's `memmove`, which a board may
// not have.
fn move_last(index: &mut [u8], at: usize)
    requires { at < length index.old }
    ensures { Moved index.old at index.new }
{
    let own = index[at];
    let last = index.len() - 1;
    for k in at..last {
        index[k] = index[k + 1];
    }
    index[last] = own;
}

// The new row into the table, and its entry to its new place: behind all others, from where it sinks.
pub fn put_in(table: &mut [u8], index: &mut [u8], i: usize, new: &[u8])
    requires i_bound { (i < rows table.old) × (length new.now ≡ row_size) }
    requires right { Right table.old index.old × Own (with_row table.old i new.now) }
    ensures table_after { table.new ≡ with_row table.old i new.now }
    ensures index_after { index.new ≡ index_of (with_row table.old i new.now) }
{
    put_row(table, i, new);
    let place = place_of(index, i);
    move_last(index, place);
    let last = index.len() - 1;
    sift_down(table, index, last);
}
