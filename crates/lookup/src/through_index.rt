// The search through an index: half of what is left goes with each name that is compared. A loop of its own, since how many it compares is handed back, and
// the library's search compares others.
ghost use Rattle.std.specs.Prelude.{◌≡◌};
ghost use Rattle.index.specs.TheSortedIndex.{index_search};
ghost use Rattle.index.specs.Laws.Right.{Right};

use index::Searched;
use rows::fields::{name_of, row_at};
use std::cmp::Ordering;

// The row that has the name, and how many rows were probed. What is left are the entries from low up to high.
pub fn probe(table: &[u8], index: &[u8], wanted: &[u8]) -> Searched
    requires { Right table.now index.now }
    ensures { result ≡ index_search table.now index.now wanted.now }
{
    let mut low = 0;
    let mut high = index.len();
    let mut compared = 0;
    while low < high {
        let middle = (low + high) / 2;
        let row = index[middle] as usize;
        compared += 1;
        match wanted.cmp(name_of(row_at(table, row))) {
            Ordering::Less => high = middle,
            Ordering::Equal => {
                return Searched {
                    found: Some(row),
                    compared,
                };
            }
            Ordering::Greater => low = middle + 1,
        }
    }
    Searched {
        found: None,
        compared,
    }
}
