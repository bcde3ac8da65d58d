// Names looked up both ways: without indexes and through them.
ghost use Rattle.std.specs.Prelude.{◌<◌};

use crate::indexes::{INDEX, ROW, row_at};
use index::LookedUp;
use lists::lines::part;
use lists::sums::{BEGIN, mixed};
use table_entries::{look_up, look_up_indexed};

// Where a row's name begins, behind its size.
const NAME: usize = 1;

fn mixed_found(sum: u64, found: LookedUp) -> u64 {
    let at = mixed(mixed(sum, found.number as u64), found.position as u64);
    let row = mixed(mixed(at, found.table as u64), found.row as u64);
    mixed(row, found.compared as u64)
}

// The tables of a card with the indexes beside them.
#[derive(Clone, Copy)]
pub struct Indexed<'a> {
    pub settings: &'a [u64; 25],
    pub hall: &'a [u8],
    pub hall_index: &'a [u8],
    pub line: &'a [u8],
    pub line_index: &'a [u8],
}

fn look_up_name(card: Indexed<'_>, name: &[u8], sum: u64) -> u64 {
    let Indexed {
        settings,
        hall,
        hall_index,
        line,
        line_index,
    } = card;
    let by_row = look_up(settings, hall, line, name);
    let indexed = look_up_indexed(settings, hall, hall_index, line, line_index, name);
    mixed_found(mixed_found(sum, by_row), indexed)
}

// How many bytes the name of a row has, which are never as many as the row.
fn name_size(size: u8) -> usize
    ensures { result < 48 }
{
    size as usize % ROW
}

// The name of a row, the same without its last byte, and with the byte behind it. A row that is not there has none.
fn look_up_row(card: Indexed<'_>, row: &[u8], before: u64) -> u64 {
    let Some(size) = row.first() else {
        return before;
    };
    let size = name_size(*size);
    [size, (size + ROW - 1) % ROW, size + 1].iter().fold(
        before,
        |sum, size| look_up_name(card, part(row, NAME, *size), sum),
    )
}

// Each row of a table.
fn look_up_rows(card: Indexed<'_>, table: &[u8], before: u64) -> u64 {
    (0..INDEX).fold(
        before,
        |sum, row| look_up_row(card, row_at(table, row), sum),
    )
}

// Each row of both tables.
pub fn look_up_all(card: Indexed<'_>) -> u64 {
    look_up_rows(card, card.line, look_up_rows(card, card.hall, BEGIN))
}
