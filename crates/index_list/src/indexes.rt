// Indexes made, turned and with entries exchanged. Settings and table stay two parameters: rows are replaced in a table by `&mut`, and one
// struct would not serve both.
use lists::lines::part;
use lists::sums::{BEGIN, mixed_answer, mixed_bytes};
use table_entries::{check_index, make_index};

// Bytes of a row, of the longest index, and of one that stands there twice.
pub const ROW: usize = 48;

pub const INDEX: usize = 64;

pub const TWICE: usize = 128;

// A row of a table by its number, or nothing where it has not so many.
pub fn row_at(table: &[u8], number: usize) -> &[u8] {
    part(table, number % TWICE * ROW, ROW)
}

// The index of a table of so many rows, made at a place of a buffer, and what came of it.
pub fn make(settings: &[u64; 25], table: &[u8], buffer: &mut [u8], at: usize, rows: usize) -> u64 {
    if buffer.len() < at {
        return 0;
    }
    if buffer.len() - at < rows {
        return 0;
    }
    let made = make_index(settings, table, &mut buffer[at..at + rows]);
    mixed_bytes(mixed_answer(BEGIN, made), part(buffer, at, rows))
}

// The same made twice, one behind the other: as many bytes from any place on are the index turned.
pub fn make_twice(settings: &[u64; 25], table: &[u8], buffer: &mut [u8], rows: usize) -> u64 {
    make(settings, table, buffer, 0, rows);
    make(settings, table, buffer, rows, rows)
}

// An index that stands there twice, checked as it is and then turned by one entry, by two and so on.
pub fn turned(settings: &[u64; 25], table: &[u8], twice: &[u8], rows: usize) -> u64 {
    (0..rows).fold(BEGIN, |sum, by| {
        mixed_answer(sum, check_index(settings, table, part(twice, by, rows)))
    })
}

// Every two entries exchanged, one pair after the other, and put back when the index is checked.
fn exchange_pairs(settings: &[u64; 25], table: &[u8], index: &mut [u8]) -> u64 {
    let mut sum = BEGIN;
    for second in 0..index.len() {
        for first in 0..second {
            index.swap(first, second);
            sum = mixed_answer(sum, check_index(settings, table, index));
            index.swap(first, second);
        }
    }
    sum
}

pub fn exchanged(settings: &[u64; 25], table: &[u8], index: &mut [u8], rows: usize) -> u64 {
    make(settings, table, index, 0, rows);
    if index.len() < rows {
        return 0;
    }
    exchange_pairs(settings, table, &mut index[0..rows])
}
