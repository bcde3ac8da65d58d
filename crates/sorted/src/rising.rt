// A table and its index told right in one pass: each row by itself, then names that rise along the index. Names that rise are different, so no name
// is held against all others. Where this says no, the whole check decides what is refused.
ghost use Rattle.std.specs.Prelude.{◌≡◌, true, length, ℕ, ◌≤◌, ◌<◌};
ghost use Rattle.rules.specs.NumbersHandedBack.{got};
ghost use Rattle.rules.specs.SettingsAsWords.{settings_of};
ghost use Rattle.rules.specs.SettingsAndUnitTable.{settings_check, row_size, kind_at, rows, row, name};
ghost use Rattle.rows.specs.Named.{padded};
ghost use Rattle.card.specs.Laws.Accepted.{UnitsGood};
ghost use Rattle.index.specs.TheSortedIndex.{before};
ghost use Rattle.index.specs.Laws.Right.{Right, Rising};
ghost use Rattle.sorted.specs.Rooms.{Alike};

use card::table::{MOST_ROWS, rows_found, unit_rule};
use rows::fields::{KIND_AT, NAME_AT, ROW_SIZE, row_at};
use words::{WORD, word_at};

// Up to where the rooms of two names are the same, word by word.
fn alike_until(row: &[u8], other: &[u8]) -> usize
    requires { (length row.now ≡ row_size) × (length other.now ≡ row_size) }
    ensures { (1 ≤ result) × (result ≤ kind_at) × Alike row.now other.now result }
{
    for at in (NAME_AT..KIND_AT).step_by(WORD) {
        if word_at(row, at) != word_at(other, at) {
            return at;
        }
    }
    KIND_AT
}

// Whether one row's name comes before another's. Both have zeros after it, so that the name's whole room decides, and where it is the same the
// sizes do. Names that begin alike are told by words.
fn comes_before(row: &[u8], other: &[u8]) -> bool
    requires row_len { (length row.now ≡ row_size) × (padded row.now ≡ true) }
    requires other_len { (length other.now ≡ row_size) × (padded other.now ≡ true) }
    ensures { result ≡ true → before (name row.now) (name other.now) ≡ true }
{
    for at in alike_until(row, other)..KIND_AT {
        if row[at] != other[at] {
            return row[at] < other[at];
        }
    }
    row[0] < other[0]
}

// Whether the entries are numbers of rows, and each name comes after the one before it.
fn names_rise(table: &[u8], index: &[u8]) -> bool
    requires index_len { length index.now ≡ rows table.now }
    requires by_index { (i : ℕ) → i < rows table.now → padded (row table.now i) ≡ true }
    ensures { result ≡ true → Rising table.now index.now }
{
    let count = index.len();
    if index.is_empty() {
        return true;
    }
    let mut last = index[0] as usize;
    if last >= count {
        return false;
    }
    for next in &index[1..] {
        let entry = *next as usize;
        if entry >= count || !comes_before(row_at(table, last), row_at(table, entry)) {
            return false;
        }
        last = entry;
    }
    true
}

// Whether the table is accepted, and the index right.
pub fn told_right(settings: &[u64; 25], table: &[u8], index: &[u8]) -> bool
    requires { settings_check (settings_of settings.now) ≡ got tt }
    ensures { result ≡ true → UnitsGood (settings_of settings.now) table.now × Right table.now index.now }
{
    if index.len() != table.len() / ROW_SIZE {
        return false;
    }
    rows_found(MOST_ROWS, unit_rule(settings), false, table).is_ok() && names_rise(table, index)
}
