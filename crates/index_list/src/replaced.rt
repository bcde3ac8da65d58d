// Rows of a table replaced one after the other, each in what the one before left, and the index beside one that is made anew.
use crate::indexes::{INDEX, ROW, TWICE, make, row_at};
use lists::sums::{BEGIN, mixed, mixed_answer, mixed_bytes};
use table_entries::replace_row;

// One row replaced: what is handed back, the index then, and the index of the table then.
fn replace_one(
    settings: &[u64; 25],
    table: &mut [u8],
    index: &mut [u8],
    row: usize,
    new_row: &[u8],
    before: u64,
) -> u64 {
    let replaced = replace_row(settings, table, index, row, new_row);
    let sum = mixed_bytes(mixed_answer(before, replaced), index);
    let mut anew = [0u8; INDEX];
    let rows = index.len();
    mixed(sum, make(settings, table, &mut anew, 0, rows))
}

// Each row of the table and two past the last, by the rows of another over and over, behind the last of which comes none.
fn replace_rows(settings: &[u64; 25], table: &mut [u8], index: &mut [u8], others: &[u8]) -> u64 {
    let past = index.len() % TWICE + 2;
    let span = others.len() / ROW % TWICE + 1;
    let mut sum = BEGIN;
    for row in 0..past {
        let new_row = row_at(others, row % span);
        sum = replace_one(settings, table, index, row, new_row, sum);
    }
    mixed_bytes(sum, table)
}

fn replace_all(settings: &[u64; 25], table: &mut [u8], others: &[u8]) -> u64 {
    let rows = table.len() / ROW;
    let mut index = [0u8; INDEX];
    make(settings, table, &mut index, 0, rows);
    if INDEX < rows {
        return 0;
    }
    replace_rows(settings, table, &mut index[0..rows], others)
}

// The same in the first bytes of a buffer, which are the table.
pub fn replace_first(settings: &[u64; 25], buffer: &mut [u8], size: usize, others: &[u8]) -> u64 {
    if buffer.len() < size {
        return 0;
    }
    replace_all(settings, &mut buffer[0..size], others)
}
