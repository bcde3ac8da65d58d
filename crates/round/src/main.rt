// Writes lists of lengths one after another and reads each line part by part and in total, under every card of its list of cards. Of each
// list it prints how many lengths and bytes it has and its total; at the end how many lengths were written and read, how many differ, and
// which numbers the writer gave at the edges of a buffer. The lengths are made by a fixed rule, so that they need not be stored.
#![tactic(auto)]

use entries::{read_part, read_total, write_length};
use lengths::duration::zero;
use lists::cards::{Lent, Room};
use lists::counts::{Counts, count, print_count};
use lists::edges::{BEYOND, EDGE, try_edge, untouched};
use lists::lines::{MOST_ENTRIES, first_bytes, until_end};
use lists::printed::print_number;
use lists::streams::STDOUT;
use rules::{Answer, LONGEST_TEXT, Length};
use tables::pow10;

// Room for one length, the longest of which has 31 bytes.
const ONE: usize = 32;

// Lists under each card. The longest is as long as a line may be.
const LISTS: u64 = 200;

// More lengths than are made.
const MOST: u64 = 1_000_000;

// What was written of a list: how many lengths, and how many bytes they take.
#[derive(Clone, Copy)]
struct Line {
    lengths: u64,
    size: usize,
}

// Cards, lengths that were written and read, and how often something was not what it should be.
#[derive(Drop)]
struct Tally {
    cards: u64,
    lengths: u64,
    differ: u64,
}

// The numbers of the writer's refusals.
const NO_ROOM: u8 = 9;

const BEYOND_THE_END: u8 = 10;

const MALFORMED: u8 = 11;

// Zero has no minus.
fn signed(negative: bool, seconds: u64, nanoseconds: u32) -> Length {
    Length {
        negative: negative && (seconds > 0 || nanoseconds > 0),
        seconds,
        nanoseconds,
    }
}

// The largest length of its sign once in eight turns, else a short one.
fn extreme(negative: bool, turn: u64) -> Length {
    if turn % 16 < 2 {
        return Length {
            negative,
            seconds: u64::MAX,
            nanoseconds: 999_999_999,
        };
    }
    signed(negative, turn, 5)
}

// The lengths of all lists, by number: zero, one nanosecond, all nanoseconds of a second, each power of ten, and others, each with both
// signs. MAX and MIN are rare, so that many lists have sums that pass no limit.
fn nth(number: u64) -> Length {
    let n = number % MOST;
    let turn = n / 8;
    let negative = turn % 2 == 1;
    let power = turn / 2;
    match n % 8 {
        0 => zero(),
        1 => signed(negative, 0, 1),
        2 => signed(negative, turn, 999_999_999),
        3 => signed(negative, pow10((power % 20) as usize), 0),
        4 => signed(
            negative,
            0,
            (pow10((power % 9) as usize) % 1_000_000_000) as u32,
        ),
        5 => extreme(negative, turn),
        6 => signed(
            negative,
            n * 16_180_339_887,
            (n * 271_828 % 1_000_000_000) as u32,
        ),
        _ => signed(negative, turn % 100, (n * 577_215 % 1_000_000_000) as u32),
    }
}

// So many lengths from a number on, one after another, or as many as there is room for.
fn write_list(buffer: &mut [u8], first: u64, most: u64) -> Line {
    let mut size = 0;
    for lengths in 0..most {
        let answer = write_length(nth(first.saturating_add(lengths)), buffer, size);
        if answer.number != 0 {
            return Line { lengths, size };
        }
        size = answer.position;
    }
    Line {
        lengths: most,
        size,
    }
}

// One difference more, unless all agrees.
fn tell(agrees: bool, tally: &mut Tally) {
    if !agrees {
        count(&mut tally.differ);
    }
}

// Each part of a line is a length that was written, and the last one ends where the line ends.
fn read_list(card: Lent<'_>, text: &[u8], lengths: u64, tally: &mut Tally) {
    let mut place = 0;
    for read in 0..lengths {
        let answer = read_part(
            card.settings,
            card.hall,
            card.line,
            card.numerals,
            text,
            place,
        );
        let written = nth(tally.lengths.saturating_add(read));
        tell(answer.number == 0 && answer.length == written, tally);
        place = answer.position;
    }
    tell(place == text.len(), tally);
}

// A length that is refused at a place of a buffer. Nothing changes.
fn try_refused(length: Length, place: usize, number: u8, counts: &mut Counts) {
    try_edge(
        counts,
        |buffer| write_length(length, buffer, place),
        |answer, buffer| answer.number == number && untouched(buffer, EDGE),
    );
}

// A length for which a buffer has exactly the room from a place on. No byte before it changes.
fn try_exact(length: Length, place: usize, counts: &mut Counts) {
    try_edge(
        counts,
        |buffer| write_length(length, buffer, place),
        |answer, buffer| answer.number == 0 && answer.position == EDGE && untouched(buffer, place),
    );
}

// One length in a buffer: with a byte less than it needs, at the end, beyond it, with nanoseconds that no length has, and with exactly the
// room.
fn try_edges(length: Length, counts: &mut Counts) {
    let mut one = [0u8; ONE];
    let size = write_length(length, &mut one, 0).position % EDGE;
    let at = EDGE - size;
    try_refused(length, at + 1, NO_ROOM, counts);
    try_refused(length, EDGE, NO_ROOM, counts);
    try_refused(length, BEYOND, BEYOND_THE_END, counts);
    let mut malformed = length;
    malformed.nanoseconds = 1_000_000_000;
    try_refused(malformed, 0, MALFORMED, counts);
    try_exact(length, at, counts);
}

// How many lengths and bytes a list has, and its total as it is written.
fn print_list(line: Line, total: Length) {
    print_number(line.lengths, b" ");
    print_number(line.size as u64, b" ");
    let mut one = [0u8; ONE];
    let answer = write_length(total, &mut one, 0);
    io::write_all(STDOUT, first_bytes(&one, answer.position));
    io::write_all(STDOUT, b"\n");
}

// A list of at most so many lengths written, read part by part and in total, and printed.
fn round(card: Lent<'_>, most: u64, tally: &mut Tally) {
    let mut buffer = [0u8; LONGEST_TEXT];
    let list = write_list(&mut buffer, tally.lengths, most);
    let text = first_bytes(&buffer, list.size);
    read_list(card, text, list.lengths, tally);
    let total = read_total(card.settings, card.hall, card.line, card.numerals, text);
    print_list(list, total.length);
    tell(total.number == 0, tally);
    tally.lengths = tally.lengths.saturating_add(list.lengths);
}

// Lists of one length, of three and so on under a card, each beginning where the one before it ended. None where the list of cards ends.
fn round_card(room: &mut Room, tally: &mut Tally) -> Option<()> {
    let card = room.next_card()?;
    count(&mut tally.cards);
    for lists in 0..LISTS {
        round(card, 2 * lists + 1, tally);
    }
    Some(())
}

// Every card of the list of cards.
fn round_all() -> Tally {
    let mut room = Room::new();
    let mut tally = Tally {
        cards: 0,
        lengths: 0,
        differ: 0,
    };
    until_end(MOST_ENTRIES, || round_card(&mut room, &mut tally));
    tally
}

// Which numbers the writer gave at the edges of a buffer, tried with so many lengths, and how often another than was wanted, or a byte was
// changed.
fn print_edges(lengths: u64) {
    let mut counts = Counts::new();
    for tried in 0..lengths {
        try_edges(nth(tried), &mut counts);
    }
    counts.print_answers(b" at the edges: ", 0);
    print_count(b"that differ: ", counts.differ);
}

fn main() {
    let tally = round_all();
    print_count(b"cards: ", tally.cards);
    print_count(b"lengths written and read: ", tally.lengths);
    print_count(b"that differ: ", tally.differ);
    print_edges(tally.lengths);
}
