// Cards of a list: a line of hexadecimal digits (switches, inner set, outer set, conjunctions, default kind, sizes of the hall's table, of the
// line's and of the numerals) and then the rows of each, each in its stored form, the last one of each whole. Sizes, counts and kinds can be
// wrong, since refusal 7 is about such cards.
use crate::fields::{byte_at, flag_at, further, short_at, word_at};
use crate::lines::{first_bytes, read_line};
use rows::fields::ROW_SIZE;
use rules::{ByteSet, Conjunction, Settings};
use settings::fields::words_of;
use stored::{LINE_SIZE, restore_row};

// Where each field of a card's line stands.
const INNER_AT: usize = 14;

const OUTER_AT: usize = 78;

const COUNT_AT: usize = 142;

const CONJUNCTIONS_AT: usize = 144;

const CONJUNCTION: usize = 18;

const KIND_AT: usize = 216;

const HALL_SIZE_AT: usize = 218;

const LINE_SIZE_AT: usize = 222;

const NUMERALS_SIZE_AT: usize = 226;

// Bytes of a card's line, the newline included.
const HEAD: usize = 231;

// The longest table of a list: four times as many rows as a unit table may have.
pub const MOST_BYTES: usize = 12_288;

// A card as it is lent: its settings, the hall's table, the line's, and the numerals.
#[derive(Clone, Copy)]
pub struct Lent<'a> {
    pub settings: &'a [u64; 25],
    pub hall: &'a [u8],
    pub line: &'a [u8],
    pub numerals: &'a [u8],
}

// Room for a card of a list.
#[derive(Drop)]
pub struct Room {
    pub settings: [u64; 25],
    pub hall: [u8; MOST_BYTES],
    pub line: [u8; MOST_BYTES],
    pub numerals: [u8; MOST_BYTES],
}

fn set_at(line: &[u8], place: usize) -> ByteSet {
    ByteSet {
        word0: word_at(line, place),
        word1: word_at(line, further(place, 16)),
        word2: word_at(line, further(place, 32)),
        word3: word_at(line, further(place, 48)),
    }
}

fn conjunction_at(line: &[u8], place: usize) -> Conjunction {
    Conjunction {
        size: byte_at(line, place),
        letters: word_at(line, further(place, 2)),
    }
}

fn settings_of(line: &[u8]) -> Settings {
    Settings {
        negatives: flag_at(line, 0),
        fractions: flag_at(line, 2),
        exponents: flag_at(line, 4),
        infinity: flag_at(line, 6),
        ago: flag_at(line, 8),
        after_sign: flag_at(line, 10),
        before_unit: flag_at(line, 12),
        inner: set_at(line, INNER_AT),
        outer: set_at(line, OUTER_AT),
        conjunctions: byte_at(line, COUNT_AT),
        first: conjunction_at(line, CONJUNCTIONS_AT),
        second: conjunction_at(line, CONJUNCTIONS_AT + CONJUNCTION),
        third: conjunction_at(line, CONJUNCTIONS_AT + 2 * CONJUNCTION),
        fourth: conjunction_at(line, CONJUNCTIONS_AT + 3 * CONJUNCTION),
        default_kind: byte_at(line, KIND_AT),
    }
}

// The next row of the list, put where it belongs in the table. None where the list ends or a line is no row.
fn read_row(table: &mut [u8], at: usize) -> Option<()> {
    let mut line = [0u8; LINE_SIZE];
    read_line(&mut line)?;
    if at <= table.len() && restore_row(&line, &mut table[at..]) {
        Some(())
    } else {
        None
    }
}

// The rows of a table of so many bytes.
fn read_table(table: &mut [u8], size: u16) -> Option<()> {
    for row in 0..(size as usize).div_ceil(ROW_SIZE) {
        read_row(table, row * ROW_SIZE)?;
    }
    Some(())
}

impl Room {
    pub fn new() -> Self {
        Room {
            settings: [0; 25],
            hall: [0; MOST_BYTES],
            line: [0; MOST_BYTES],
            numerals: [0; MOST_BYTES],
        }
    }

    // The next card of the list.
    pub fn next_card(&mut self) -> Option<Lent<'_>> {
        let mut head = [0u8; HEAD];
        read_line(&mut head)?;
        let of_hall = short_at(&head, HALL_SIZE_AT);
        let of_line = short_at(&head, LINE_SIZE_AT);
        let of_numerals = short_at(&head, NUMERALS_SIZE_AT);
        read_table(&mut self.hall, of_hall)?;
        read_table(&mut self.line, of_line)?;
        read_table(&mut self.numerals, of_numerals)?;
        self.settings = words_of(settings_of(&head));
        Some(Lent {
            settings: &self.settings,
            hall: first_bytes(&self.hall, of_hall as usize),
            line: first_bytes(&self.line, of_line as usize),
            numerals: first_bytes(&self.numerals, of_numerals as usize),
        })
    }
}
