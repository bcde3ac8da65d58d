// Lookup over both unit tables: the line's rows win.
ghost use Rattle.std.specs.Prelude.{◌≡◌, take};
ghost use Rattle.rules.specs.NumbersHandedBack.{got};
ghost use Rattle.rules.specs.SettingsAndUnitTable.{low_first, stands, find_row};
ghost use Rattle.rows.specs.Named.{Padded};
ghost use Rattle.index.specs.TheSortedIndex.{row_search, compared_in_both, looked_up};
ghost use Rattle.lookup.specs.Searching.{Searchable, searched};

use crate::rows_in_order::{find, row_named};
use crate::through_index::probe;
use index::{LookedUp, Searched};
use rows::fields::row_at;

// The table that holds a name, as a lookup numbers it.
pub const NEITHER: u8 = 0;

const HALLS_TABLE: u8 = 1;

const LINES_TABLE: u8 = 2;

// The two unit tables and the index beside each; an empty index means the search row by row. A row that is found lives as long as the tables, whatever becomes of
// the indexes.
#[derive(Clone, Copy)]
pub struct UnitTables<'a, 'b> {
    pub hall: &'a [u8],
    pub hall_index: &'b [u8],
    pub line: &'a [u8],
    pub line_index: &'b [u8],
    pub ghost searchable: { ∥ Searchable hall.now hall_index.now × Searchable line.now line_index.now ∥₁ },
}

// One table searched through the index beside it, or row by row where that is empty.
fn search(table: &[u8], index: &[u8], wanted: &[u8], first: u64) -> Searched
    requires { Searchable table.now index.now × (first ≡ low_first (take 8 wanted.now)) }
    ensures { result ≡ searched table.now index.now wanted.now }
{
    if index.is_empty() {
        return find(table, wanted, first);
    }
    probe(table, index, wanted)
}

// The table that holds a name, and its row there.
#[derive(Clone, Copy)]
enum Held {
    InLine(usize),
    InHall(usize),
}

impl<'a, 'b> UnitTables<'a, 'b> {
    ghost use Rattle.lookup.specs.Holding.{holder};

    // Both tables row by row. The line's is searched for a number and the hall's for a row: with one way for both the compiler is left with fewer
    // registers for the rest of a part.
    fn find_in_order(&self, name: &[u8], first: u64, compared: &mut usize) -> &'a [u8]
        requires { first ≡ low_first (take 8 name.now) }
        ensures result_value { result.now ≡ find_row self.now.hall.now self.now.line.now name.now }
        ensures compared_after { compared.new ≡ compared_in_both (row_search self.now.line.now name.now) (row_search self.now.hall.now name.now) }
    {
        let in_line = find(self.line, name, first);
        match in_line.found {
            Some(i) => {
                *compared = in_line.compared;
                row_at(self.line, i)
            }
            None => {
                let row = row_named(self.hall, name, first, compared);
                *compared = in_line.compared + *compared;
                row
            }
        }
    }

    // Both tables searched for a name, of which the first word is lent too, each by its index if it has one: the hall's only where the line's has no such row.
    // How many names were compared is left in the lent number.
    fn held(&self, name: &[u8], first: u64, compared: &mut usize) -> Option<Held>
        requires { first ≡ low_first (take 8 name.now) }
        ensures held_value { holder result ≡ stands self.now.hall.now self.now.line.now name.now }
        ensures compared_after { compared.new ≡ compared_in_both (searched self.now.line.now self.now.line_index.now name.now) (searched self.now.hall.now self.now.hall_index.now name.now) }
    {
        let in_line = search(self.line, self.line_index, name, first);
        match in_line.found {
            Some(i) => {
                *compared = in_line.compared;
                Some(Held::InLine(i))
            }
            None => {
                let in_hall = search(self.hall, self.hall_index, name, first);
                *compared = in_line.compared + in_hall.compared;
                in_hall.found.map(Held::InHall)
            }
        }
    }

    // The same, as it is handed back: a lookup that was made ends with 0, whether the name was found or not.
    pub fn looked_up(&self, name: &[u8], first: u64) -> LookedUp
        requires { first ≡ low_first (take 8 name.now) }
        ensures { result ≡ looked_up (got tt) (searched self.now.line.now self.now.line_index.now name.now) (searched self.now.hall.now self.now.hall_index.now name.now) }
    {
        let mut compared = 0;
        let (table, row) = match self.held(name, first, &mut compared) {
            Some(Held::InLine(i)) => (LINES_TABLE, i),
            Some(Held::InHall(i)) => (HALLS_TABLE, i),
            None => (NEITHER, 0),
        };
        LookedUp {
            number: 0,
            position: 0,
            table,
            row,
            compared,
        }
    }

    // The row of a unit, from whichever table holds it, by the name and its first word: the line's rows win. An empty part of the hall's, if none does. How many names were compared is
    // left in the lent number. Most cards have no index, and one test tells so of both.
    pub fn find_row(&self, name: &[u8], first: u64, compared: &mut usize) -> &'a [u8]
        requires { first ≡ low_first (take 8 name.now) }
        ensures result_value { result.now ≡ find_row self.now.hall.now self.now.line.now name.now }
        ensures compared_after { compared.new ≡ compared_in_both (searched self.now.line.now self.now.line_index.now name.now) (searched self.now.hall.now self.now.hall_index.now name.now) }
    {
        if self.hall_index.is_empty() && self.line_index.is_empty() {
            return self.find_in_order(name, first, compared);
        }
        match self.held(name, first, compared) {
            Some(Held::InLine(i)) => row_at(self.line, i),
            Some(Held::InHall(i)) => row_at(self.hall, i),
            None => &self.hall[..0],
        }
    }
}
