// The entries of an index held against the true order, one by one: what is wrong with an index that is not right.
ghost use Rattle.std.specs.Prelude.{◌≡◌, ℕ, ◌<◌, ◌≤◌, length};
ghost use Rattle.rules.specs.declared.Refusal.{Refusal};
ghost use Rattle.rules.specs.SettingsAndUnitTable.{most_rows, rows, row, name};
ghost use Rattle.card.specs.Laws.Table.{first_bad};
ghost use Rattle.index.specs.TheSortedIndex.{before, names_before, entry_right, index_check};
ghost use Rattle.sorted.specs.Found.{told};

use lookup::names::before;
use rows::fields::{ROW_SIZE, name_of, row_at};

// Whether a row's name comes before this one.
fn row_before(table: &[u8], i: usize, wanted: &[u8]) -> bool
    requires { i < rows table.now }
    ensures { result ≡ before (name (row table.now i)) wanted.now }
{
    before(name_of(row_at(table, i)), wanted)
}

// How many rows have a name before this one.
fn names_before(table: &[u8], wanted: &[u8]) -> usize
    ensures { result ≡ names_before table.now wanted.now }
{
    let mut found = 0;
    // A loop: of a filter and its count the check does not find that only numbers of rows are asked.
    for i in 0..table.len() / ROW_SIZE {
        if row_before(table, i, wanted) {
            found += 1;
        }
    }
    found
}

fn entry_right(table: &[u8], index: &[u8], k: usize) -> bool
    requires { k < length index.now }
    ensures { result ≡ entry_right table.now index.now k }
{
    let row = index[k] as usize;
    if row >= table.len() / ROW_SIZE {
        return false;
    }
    names_before(table, name_of(row_at(table, row))) == k
}

// Under a table that has been accepted, so that a byte counts its rows. What is wrong with the index is its first entry that is not the true order's, or
// the number of rows, if it has another length.
pub fn index_found(table: &[u8], index: &[u8]) -> Result<(), u8>
    requires { rows table.now ≤ most_rows }
    ensures { (wrong : ℕ → Refusal) → told wrong result ≡ index_check wrong table.now index.now }
{
    let count = table.len() / ROW_SIZE;
    if index.len() != count {
        return Err(count as u8);
    }
    for k in 0..count {
        if !entry_right(table, index, k) {
            return Err(k as u8);
        }
    }
    Ok(())
}
