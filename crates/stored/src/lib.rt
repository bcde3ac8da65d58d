// The stored form of a row: a line of 96 lower-case hexadecimal digits and a newline.
#![tactic(auto)]

ghost use Rattle.std.specs.Prelude.{◌≡◌, true, ◌++◌, ◌<◌, ◌≤◌, length, take, drop};
ghost use Rattle.rules.specs.Common.{all};
ghost use Rattle.rules.specs.SettingsAndUnitTable.{name_room, row_size, hexadecimal, two_digits};
ghost use Rattle.stored.specs.Lines.{line_size_in, line_accepted_in, digits_size, digit_value, spells, paired, stores, line_after, restores, row_after};

use rows::fields::{NAME_ROOM, ROW_SIZE};

// How many digits a line has, how many bytes, and its last.
const DIGITS_SIZE: usize = 96;

pub const LINE_SIZE: usize = 97;

const NEWLINE: u8 = 10;

// The bytes of a row beside the room for its name.
const BESIDE_NAME: usize = 16;

fn hexadecimal(d: u8) -> u8
    requires { d < 16 }
    ensures { result ≡ hexadecimal d }
{
    if d < 10 { 48 + d } else { 87 + d }
}

// Two digits for each byte of the row, from the line's start on. They are written by index: of what is written through parts that are lent a proof knows
// the length alone.
fn put_digits(row: &[u8], line: &mut [u8])
    requires { (length row.now ≡ row_size) × (digits_size ≤ length line.old) }
    ensures { line.new ≡ two_digits row.now ++ drop digits_size line.old }
{
    for i in 0..ROW_SIZE {
        let b = row[i];
        let high = 2 * i;
        let low = high + 1;
        line[high] = hexadecimal(b / 16);
        line[low] = hexadecimal(b % 16);
    }
}

// A row to its line, at the start of the buffer. A row of wrong length, or a buffer without room, changes nothing.
pub fn store_row(row: &[u8], line: &mut [u8]) -> bool
    ensures value { result ≡ stores row.now line.old }
    ensures line_after { line.new ≡ line_after row.now line.old }
{
    if row.len() != ROW_SIZE {
        return false;
    }
    if line.len() < LINE_SIZE {
        return false;
    }
    put_digits(row, line);
    line[DIGITS_SIZE] = NEWLINE;
    true
}

// What a hexadecimal digit stands for, and 16 for a byte that is none: a number, and no option, as the definition has it.
pub fn digit_value(b: u8) -> u8
    ensures { result ≡ digit_value b }
{
    match b {
        48..=57 => b - 48,
        97..=102 => b - 87,
        _ => 16,
    }
}

// Whether these bytes are digits. A loop: as a chain of the library's it asks with a jump for each byte whether it is a letter, which takes up to half as long
// again where digits and letters come in no order.
fn spells(part: &[u8]) -> bool
    ensures { result ≡ all spells part.now }
{
    for i in 0..part.len() {
        if digit_value(part[i]) > 15 {
            return false;
        }
    }
    true
}

// The bytes of a line, by the room that its rows have for a name.
pub fn line_size(room: usize) -> usize
    requires { room ≤ name_room }
    ensures { result ≡ line_size_in room }
{
    2 * (room + BESIDE_NAME) + 1
}

// A line of the form's length: its digits and a newline.
pub fn line_accepted(line: &[u8], room: usize) -> bool
    requires { room ≤ name_room }
    ensures { result ≡ line_accepted_in room line.now }
{
    let size = line_size(room);
    if line.len() != size {
        return false;
    }
    let digits = size - 1;
    if line[digits] != NEWLINE {
        return false;
    }
    spells(&line[..digits])
}

// A byte for each two digits of the line, from the row's start on; by index too.
fn put_bytes(line: &[u8], row: &mut [u8])
    requires digits_size_in_bounds { (digits_size ≤ length line.now) × (row_size ≤ length row.old) }
    requires line_value { all spells (take digits_size line.now) ≡ true }
    ensures { row.new ≡ paired (take digits_size line.now) ++ drop row_size row.old }
{
    for i in 0..ROW_SIZE {
        let high = 2 * i;
        let low = high + 1;
        row[i] = digit_value(line[high]) * 16 + digit_value(line[low]);
    }
}

// A line back to its row, at the start of the buffer. A line of wrong length or bytes, or a buffer without room, changes nothing.
pub fn restore_row(line: &[u8], row: &mut [u8]) -> bool
    ensures value { result ≡ restores line.now row.old }
    ensures row_after { row.new ≡ row_after line.now row.old }
{
    if row.len() < ROW_SIZE {
        return false;
    }
    if !line_accepted(line, NAME_ROOM as usize) {
        return false;
    }
    put_bytes(line, row);
    true
}
