// Stored rows moved from one form to the other. The list has ten of them in the new form, a line each: eight whose names the old form has room
// for, and two whose names it has not. Lists of 0 to 200 lines of the eight, over and over, are moved from both forms: whole, into targets that
// are too short, with a byte behind their last line, and with that line spoiled; and of the longest list each line is spoiled in each way. Of each
// list it prints how many lines it has and a check sum of what was handed back at each step, then such sums for each way, and at the end how many
// lists there were.
#![tactic(auto)]

mod forms;
mod spoiled;
mod whole;

use forms::{EIGHT_ROWS, Form, NEW_LINES, OLD_LINES, TEN_ROWS, fill_lines};
use lists::lines::{part, read_line};
use lists::printed::print_number;
use spoiled::{WAYS, last_spoiled, lines_spoiled};
use whole::{behind, moved_whole, too_short};

// How many lists there are: of 0 lines to 200.
const LISTS: usize = 201;

// Bytes of the two rows behind the eight.
const TWO_ROWS: usize = 194;

// All that is tried of a list of so many lines.
fn try_list(new: &mut [u8], old: &mut [u8], long: &[u8], count: usize) {
    print_number(count as u64, b" ");
    print_number(moved_whole(Form::New, new, count), b" ");
    print_number(moved_whole(Form::Old, old, count), b" ");
    print_number(too_short(new, old, count), b" ");
    print_number(behind(new, old, count), b" ");
    print_number(last_spoiled(Form::New, new, long, count), b" ");
    print_number(last_spoiled(Form::Old, old, long, count), b"\n");
}

// Each line of the longest list, spoiled in a way.
fn try_way(new: &mut [u8], old: &mut [u8], long: &[u8], way: usize) {
    print_number(lines_spoiled(Form::New, new, long, way), b" ");
    print_number(lines_spoiled(Form::Old, old, long, way), b"\n");
}

// Each list and each way, and how many lists there are.
fn try_all(new: &mut [u8], old: &mut [u8], long: &[u8]) {
    for count in 0..LISTS {
        try_list(new, old, long, count);
    }
    for way in 0..WAYS {
        try_way(new, old, long, way);
    }
    print_number(LISTS as u64, b" lists\n");
}

fn main() {
    let mut rows = [0u8; TEN_ROWS];
    let mut new = [0u8; NEW_LINES];
    let mut old = [0u8; OLD_LINES];
    if read_line(&mut rows).is_some() {
        fill_lines(&rows, &mut new);
        Form::New.move_lines(&new, &mut old);
        try_all(&mut new, &mut old, part(&rows, EIGHT_ROWS, TWO_ROWS));
    }
}
