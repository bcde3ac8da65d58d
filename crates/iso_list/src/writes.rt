// Lengths written and read again, and the edges of a buffer.
use crate::made_lengths::{LENGTHS, nth};
use iso_entries::{read_iso, write_iso};
use lists::counts::{Counts, count, print_count};
use lists::edges::{BEFORE, BEYOND, EDGE, try_edge, untouched};
use lists::lines::first_bytes;
use lists::streams::STDOUT;
use rules::{Answer, Length};

// The numbers of the writer's refusals.
const NEGATIVE: u8 = 5;

const NO_ROOM: u8 = 9;

const BEYOND_THE_END: u8 = 10;

const MALFORMED: u8 = 11;

fn refused(number: u8, position: usize) -> Answer {
    Answer {
        number,
        position,
        length: Length {
            negative: false,
            seconds: 0,
            nanoseconds: 0,
        },
    }
}

fn done(position: usize, length: Length) -> Answer {
    Answer {
        number: 0,
        position,
        length,
    }
}

// Whether a buffer's bytes from a place on read as the length that was written.
fn reads_as(buffer: &[u8], place: usize, length: Length) -> bool {
    buffer
        .get(place..)
        .is_some_and(|text| read_iso(text) == done(text.len(), length))
}

// A length written at a place of the first bytes of a buffer, which are lent as a buffer of their own.
fn write_within(length: Length, buffer: &mut [u8], room: usize, place: usize) -> Answer {
    match buffer.get_mut(..room) {
        None => refused(BEYOND_THE_END, room),
        Some(first) => write_iso(length, first, place),
    }
}

// A length that is refused, in a buffer of so many bytes and at a place. Nothing changes.
fn try_refused(length: Length, room: usize, place: usize, wanted: Answer, counts: &mut Counts) {
    try_edge(
        counts,
        |buffer| write_within(length, buffer, room, place),
        |answer, buffer| answer == wanted && untouched(buffer, EDGE),
    );
}

// A length for which a buffer of so many bytes has exactly the room from a place on. No byte before it changes.
fn try_exact(length: Length, room: usize, place: usize, counts: &mut Counts) {
    try_edge(
        counts,
        |buffer| write_within(length, buffer, room, place),
        |answer, buffer| {
            answer == done(room, length)
                && untouched(buffer, place)
                && reads_as(first_bytes(buffer, room), place, length)
        },
    );
}

// Buffers with a byte less than the length needs, whole and behind a place; the end of one, and beyond it; and exactly the room, whole and
// behind a place. A length that needs no byte would be written into the first, and so differ.
fn try_places(length: Length, size: usize, counts: &mut Counts) {
    let at = EDGE - size % EDGE;
    let less = (size % EDGE + EDGE - 1) % EDGE;
    try_refused(length, less, 0, refused(NO_ROOM, 0), counts);
    try_refused(length, EDGE, at + 1, refused(NO_ROOM, at + 1), counts);
    try_refused(length, EDGE, EDGE, refused(NO_ROOM, EDGE), counts);
    try_refused(
        length,
        EDGE,
        BEYOND,
        refused(BEYOND_THE_END, BEYOND),
        counts,
    );
    try_exact(length, size, 0, counts);
    try_exact(length, EDGE, at, counts);
}

// Minus zero is malformed, and any other length below zero negative.
fn number_below_zero(length: Length) -> u8 {
    if (length.seconds == 0) & (length.nanoseconds == 0) {
        MALFORMED
    } else {
        NEGATIVE
    }
}

// What is refused whatever the place, and before the place is looked at.
fn try_lengths(length: Length, counts: &mut Counts) {
    let malformed = refused(MALFORMED, 0);
    let mut other = length;
    other.negative = true;
    try_refused(
        other,
        EDGE,
        BEYOND,
        refused(number_below_zero(length), 0),
        counts,
    );
    other.nanoseconds = 1_000_000_000;
    try_refused(other, EDGE, BEYOND, malformed, counts);
    other.nanoseconds = 4_294_967_295;
    try_refused(other, EDGE, 0, malformed, counts);
}

// One length written into a large buffer, printed and read again, and how many bytes it needs.
fn write_one(length: Length, counts: &mut Counts) -> usize {
    let mut one = [BEFORE; EDGE];
    let size = write_iso(length, &mut one, 0).position;
    let text = first_bytes(&one, size);
    io::write_all(STDOUT, text);
    io::write_all(STDOUT, b"\n");
    if !reads_as(text, 0, length) {
        count(&mut counts.differ);
    }
    size
}

// All lengths, and how many bytes they need.
fn write_lengths(counts: &mut Counts) -> u64 {
    let mut bytes = 0u64;
    for number in 0..LENGTHS {
        let length = nth(number);
        let size = write_one(length, counts);
        try_places(length, size, counts);
        try_lengths(length, counts);
        bytes = bytes.saturating_add(size as u64);
    }
    bytes
}

pub fn write_all() {
    let mut counts = Counts::new();
    let bytes = write_lengths(&mut counts);
    print_count(b"lengths written and read: ", LENGTHS);
    print_count(b"bytes: ", bytes);
    print_count(b"that differ: ", counts.differ);
    counts.print_answers(b" of the writer: ", 0);
}
