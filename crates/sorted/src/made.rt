// An index made: row after row is put at its end, and sinks below the names that come after its own.
ghost use Rattle.std.specs.Prelude.{◌≡◌, ◌≤◌, length};
ghost use Rattle.rules.specs.SettingsAndUnitTable.{most_rows, rows};
ghost use Rattle.index.specs.TheSortedIndex.{index_of};
ghost use Rattle.index.specs.Laws.Right.{Own};
ghost use Rattle.sorted.specs.Sifting.{Sifting, Sifted};

use lookup::names::before;
use rows::fields::{name_of, row_at};

// The entry at this place sinks until the name before it comes first. All other names rise, and those behind it come after its own.
pub fn sift_down(table: &[u8], index: &mut [u8], at: usize)
    requires { Own table.now × Sifting table.now index.old at }
    ensures { Sifted table.now index.old index.new }
{
    let wanted = name_of(row_at(table, index[at] as usize));
    for below in (0..at).rev() {
        if !before(wanted, name_of(row_at(table, index[below] as usize))) {
            return;
        }
        index.swap(below + 1, below);
    }
}

// The index of a table without two equal names.
pub fn make(table: &[u8], index: &mut [u8])
    requires { Own table.now × (length index.old ≡ rows table.now) × (rows table.now ≤ most_rows) }
    ensures { index.new ≡ index_of table.now }
{
    for i in 0..index.len() {
        index[i] = i as u8;
        sift_down(table, &mut index[..=i], i);
    }
}
