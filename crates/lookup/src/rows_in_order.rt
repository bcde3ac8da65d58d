// The old search: row by row, up to the first that has the name.
ghost use Rattle.std.specs.Prelude.{◌≡◌, take};
ghost use Rattle.rules.specs.SettingsAndUnitTable.{low_first};
ghost use Rattle.rows.specs.Named.{Padded, row_named};
ghost use Rattle.index.specs.TheSortedIndex.{row_search};

use crate::names::has_name;
use index::Searched;
use rows::fields::ROW_SIZE;

// The number of the first row that has the name, and how many were looked at.
pub fn find(table: &[u8], wanted: &[u8], first: u64) -> Searched
    requires { Padded table.now × (first ≡ low_first (take 8 wanted.now)) }
    ensures { result ≡ row_search table.now wanted.now }
{
    let mut compared = 0;
    for row in table.chunks_exact(ROW_SIZE) {
        if has_name(row, wanted, first) {
            return Searched {
                found: Some(compared),
                compared: compared + 1,
            };
        }
        compared += 1;
    }
    Searched {
        found: None,
        compared,
    }
}

// The first row that has the name, as a part of the table; an empty part, if none has it. How many were looked at is left in the lent number.
pub fn row_named<'a>(table: &'a [u8], wanted: &[u8], first: u64, compared: &mut usize) -> &'a [u8]
    requires { Padded table.now × (first ≡ low_first (take 8 wanted.now)) }
    ensures result_value { result.now ≡ row_named table.now wanted.now }
    ensures compared_after { compared.new ≡ (row_search table.now wanted.now).compared }
{
    let mut passed = 0;
    for row in table.chunks_exact(ROW_SIZE) {
        if has_name(row, wanted, first) {
            *compared = passed + 1;
            return row;
        }
        passed += 1;
    }
    *compared = passed;
    &table[..0]
}
