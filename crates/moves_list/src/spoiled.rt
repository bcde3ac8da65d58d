// Lists of which a line is spoiled: in its bytes, in its length, in the size of its name, in its zeros, or by a name that is too long.
use crate::forms::{Form, MOST_LINES, NEW_LINE, mixed_refusal};
use lists::fields::further;
use lists::lines::part;
use lists::sums::BEGIN;
use printing::NEWLINE;

// The ways to spoil a line; the last two, in which it is one whose name is too long, are of the new form alone.
pub const WAYS: usize = 13;

const WAYS_OF_BOTH: usize = 11;

// Where in a line of a form something stands: its last digit, its newline and its middle, the last digit of the room for the name, and the
// first digit of the zeros at its end; and the first digit of a name's size that is one too many.
#[derive(Clone, Copy)]
struct Places {
    last_digit: usize,
    end: usize,
    middle: usize,
    room_end: usize,
    zeros: usize,
    past_room: u8,
}

const NEW_PLACES: Places = Places {
    last_digit: 95,
    end: 96,
    middle: 48,
    room_end: 65,
    zeros: 88,
    past_room: TWO,
};

const OLD_PLACES: Places = Places {
    last_digit: 63,
    end: 64,
    middle: 32,
    room_end: 33,
    zeros: 56,
    past_room: ONE,
};

const ZERO: u8 = 48;

const ONE: u8 = 49;

const TWO: u8 = 50;

const UPPER_A: u8 = 65;

const UPPER_G: u8 = 71;

const LOWER_F: u8 = 102;

fn places_of(form: Form) -> Places {
    match form {
        Form::New => NEW_PLACES,
        Form::Old => OLD_PLACES,
    }
}

fn ways_of(form: Form) -> usize {
    match form {
        Form::New => WAYS,
        Form::Old => WAYS_OF_BOTH,
    }
}

// Bytes put over those from a place on, as far as there are any.
fn put(lines: &mut [u8], at: usize, bytes: &[u8]) {
    for (i, byte) in bytes.iter().enumerate() {
        let place = further(at, i);
        if place < lines.len() {
            lines[place] = *byte;
        }
    }
}

// The line that begins at a place, spoiled in a way.
fn spoil(form: Form, lines: &mut [u8], long: &[u8], at: usize, way: usize) {
    let places = places_of(form);
    match way {
        // Bytes that are no digit, and length: no newline, and one too early.
        0 => put(lines, at, &[UPPER_G]),
        1 => put(lines, further(at, places.last_digit), &[UPPER_A]),
        2 => put(lines, further(at, places.end), &[ZERO]),
        3 => put(lines, at, &[NEWLINE]),
        4 => put(lines, further(at, places.middle), &[NEWLINE]),
        // The size of the name: none, one too many, as many as there are.
        5 => put(lines, at, &[ZERO, ZERO]),
        6 => put(lines, at, &[places.past_room, ONE]),
        7 => put(lines, at, &[LOWER_F, LOWER_F]),
        // The last byte of the name's room, and the first and the last zero at the row's end.
        8 => put(lines, further(at, places.room_end), &[ONE]),
        9 => put(lines, further(at, places.zeros), &[ONE]),
        10 => put(lines, further(at, places.last_digit), &[ONE]),
        11 => put(lines, at, part(long, 0, NEW_LINE)),
        _ => put(lines, at, part(long, NEW_LINE, NEW_LINE)),
    }
}

// A list of so many lines with one of them spoiled, which is then as it was.
fn line_spoiled(
    form: Form,
    lines: &mut [u8],
    long: &[u8],
    count: usize,
    number: usize,
    way: usize,
    before: u64,
) -> u64 {
    let at = form.size_of(number);
    let size = form.size_of(1);
    let mut kept = [0u8; NEW_LINE];
    put(&mut kept, 0, part(lines, at, size));
    spoil(form, lines, long, at, way);
    let source = part(lines, 0, form.size_of(count));
    let sum = mixed_refusal(form, source, form.other().size_of(count), before);
    put(lines, at, part(&kept, 0, size));
    sum
}

// A list of at least one line with the last of them spoiled in each way of its form.
pub fn last_spoiled(form: Form, lines: &mut [u8], long: &[u8], count: usize) -> u64 {
    let mut sum = BEGIN;
    if count > 0 {
        for way in 0..ways_of(form) {
            sum = line_spoiled(form, lines, long, count, count - 1, way, sum);
        }
    }
    sum
}

// The longest list with each of its lines spoiled in a way, if its form has that.
pub fn lines_spoiled(form: Form, lines: &mut [u8], long: &[u8], way: usize) -> u64 {
    let mut sum = BEGIN;
    if way < ways_of(form) {
        for number in 0..MOST_LINES {
            sum = line_spoiled(form, lines, long, MOST_LINES, number, way, sum);
        }
    }
    sum
}
