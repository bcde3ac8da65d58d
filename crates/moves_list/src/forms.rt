// The two forms of stored lines, and a target that is held to what it was.
use lists::edges::{BEFORE, untouched};
use lists::sums::{mixed, mixed_answer, mixed_bytes};
use move_entries::{move_to_new, move_to_old};
use rules::Answer;

// Lines of the longest list.
pub const MOST_LINES: usize = 200;

// Bytes of a line, and of one line more than the longest list has.
pub const NEW_LINE: usize = 97;

pub const OLD_LINE: usize = 65;

pub const NEW_LINES: usize = 19_497;

pub const OLD_LINES: usize = 13_065;

// Bytes of the rows of which the lists are, and of all rows.
pub const EIGHT_ROWS: usize = 776;

pub const TEN_ROWS: usize = 970;

// No list has so many lines: a remainder by it only says so.
const FAR: usize = 1_024;

// A form, the lines of which are moved to the other one.
#[derive(Clone, Copy)]
pub enum Form {
    New,
    Old,
}

impl Form {
    pub fn other(self) -> Form {
        match self {
            Form::New => Form::Old,
            Form::Old => Form::New,
        }
    }

    // Bytes of so many lines.
    pub fn size_of(self, count: usize) -> usize {
        match self {
            Form::New => count % FAR * NEW_LINE,
            Form::Old => count % FAR * OLD_LINE,
        }
    }

    pub fn move_lines(self, source: &[u8], target: &mut [u8]) -> Answer {
        match self {
            Form::New => move_to_old(source, target),
            Form::Old => move_to_new(source, target),
        }
    }
}

// The eight rows over and over, up to the buffer's end.
pub fn fill_lines(rows: &[u8; TEN_ROWS], buffer: &mut [u8]) {
    for (i, byte) in buffer.iter_mut().enumerate() {
        *byte = rows[i % EIGHT_ROWS];
    }
}

// Lines moved into a target of so many bytes, which hold what they held before: what is handed back, and what is made of these bytes then.
fn mixed_into<M: FnOnce(u64, &[u8]) -> u64>(
    form: Form,
    source: &[u8],
    size: usize,
    sum: u64,
    mix: M,
) -> u64
    requires { M.IsAlwaysCallable mix }
{
    let mut room = [BEFORE; NEW_LINES];
    if room.len() < size {
        return 0;
    }
    let target = &mut room[..size];
    let moved = form.move_lines(source, target);
    mix(mixed_answer(sum, moved), target)
}

pub fn mixed_move(form: Form, source: &[u8], size: usize, sum: u64) -> u64 {
    mixed_into(form, source, size, sum, mixed_bytes)
}

// The same of lines that are mostly refused: what is handed back, and whether the target is as it was.
pub fn mixed_refusal(form: Form, source: &[u8], size: usize, sum: u64) -> u64 {
    mixed_into(form, source, size, sum, |answered, target| {
        mixed(answered, u64::from(untouched(target, size)))
    })
}
