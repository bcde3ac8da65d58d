// What is asked of one row, by itself and beside another's name.
ghost use Rattle.std.specs.Prelude.{◌≡◌, true, false, ◌+◌, ◌-◌, ◌%◌, eqb, length, take, drop};
ghost use Rattle.rules.specs.Common.{all, between, same};
ghost use Rattle.rules.specs.SettingsAndUnitTable.{LETTER, is, row_size, kind_at, zeros_at, name, led_by_e};
ghost use Rattle.settings.specs.Sets.{bytes_of, passes};
ghost use Rattle.rows.specs.Named.{padded};
ghost use Rattle.card.specs.Fields.{Letterless, Simple, asked_further, name_right, fields_right, alone};

use rows::fields::{
    KIND_AT, LAST_WORD_AT, NAME_AT, NAME_ROOM, SECOND_WORD_AT, THIRD_WORD_AT, ZEROS_AT, name_of,
    plainly_small, product_in_range,
};
use settings::sets::{AsciiSet, holds};
use words::{BYTE_BITS, HIGH_BITS, WORD, WORD_BITS, half_at, letter_marks, word_at};

// Kinds as a row has them: the last of the eight, and seconds.
const LAST_KIND: u8 = 7;

const SECONDS: u8 = 3;

// What is asked of a row after its form. It stands last, so that it is asked once a row: within the form it would be asked once a byte of each name.
// An enum, and no closure: `table::unit_rule` hands a rule out, and here no function hands out a closure.
#[derive(Clone, Copy)]
pub enum Further {
    Nothing,
    NotLedByE,
    AsciiSeconds,
}

// What is asked of the rows of a table: no byte of a name is in the set, and what is asked further. It depends on the settings
// alone, and is made once for a table.
#[derive(Clone, Copy)]
pub struct RowRule {
    pub set: AsciiSet,
    pub further: Further,
}

// Whether zeros stand after a row's fields. They are read as one number.
fn zeros(row: &[u8]) -> bool
    requires { length row.now ≡ row_size }
    ensures { result ≡ all (eqb 0) (drop zeros_at row.now) }
{
    half_at(row, ZEROS_AT) == 0
}

// Whether the words of the name's room are zero from this place on.
fn zero_words(row: &[u8], from: usize) -> bool
    requires { (length row.now ≡ row_size) × (from % 8 ≡ 1) }
    ensures { result ≡ all (eqb 0) (take (kind_at - from) (drop from row.now)) }
{
    let mut at = from;
    while at < KIND_AT {
        if word_at(row, at) != 0 {
            return false;
        }
        at += WORD;
    }
    true
}

// A name of 1 to 32 bytes, and zeros after it. What stands behind the name in the word that it ends in is asked at once, and then each word after it.
fn padded(row: &[u8]) -> bool
    requires { length row.now ≡ row_size }
    ensures { result ≡ padded row.now }
{
    let size = row[0];
    if size < 1 {
        return false;
    }
    if size > NAME_ROOM {
        return false;
    }
    if size == NAME_ROOM {
        return true;
    }
    let over = size % 8;
    let last = NAME_AT + (size - over) as usize;
    if word_at(row, last) >> (BYTE_BITS * over as u64) != 0 {
        return false;
    }
    zero_words(row, last + WORD)
}

// Whether a row has a name as nearly all have one: fewer than eight bytes, all of them letters, and zeros after it.
fn short_letters(row: &[u8]) -> bool
    requires { length row.now ≡ row_size }
    ensures { result ≡ true → (padded row.now ≡ true) × (all (is LETTER) (name row.now) ≡ true) }
{
    let size = row[0] as u64;
    if size < 1 {
        return false;
    }
    if size > 7 {
        return false;
    }
    let bits = BYTE_BITS * size;
    if word_at(row, NAME_AT) >> bits != 0 {
        return false;
    }
    if letter_marks(row, NAME_AT) != HIGH_BITS >> (WORD_BITS - bits) {
        return false;
    }
    zero_words(row, SECOND_WORD_AT)
}

// Whether a row is as nearly all are: a short name of letters, and fields that are right as they stand. One test that is enough for such a row, before
// document 01's whole test.
pub fn simple(row: &[u8]) -> bool
    requires { length row.now ≡ row_size }
    ensures { result ≡ true → Simple row.now }
{
    short_letters(row) && row[KIND_AT] <= LAST_KIND && zeros(row) && plainly_small(row)
}

// Whether the set holds none of these bytes.
fn none_held(set: AsciiSet, bytes: &[u8]) -> bool
    ensures { result ≡ all (passes (bytes_of set) false) bytes.now }
{
    for i in 0..bytes.len() {
        if holds(set, bytes[i]) {
            return false;
        }
    }
    true
}

// Whether the set holds none of eight bytes. It holds no letter, so that it is asked only where one of them is none.
fn word_accepted(set: AsciiSet, word: &[u8]) -> bool
    requires { (length word.now ≡ 8) × Letterless (bytes_of set) }
    ensures { result ≡ all (passes (bytes_of set) false) word.now }
{
    if letter_marks(word, 0) == HIGH_BITS {
        return true;
    }
    none_held(set, word)
}

// Whether the set holds none of the name's bytes, eight at a time. A loop, and no chain of chunks, of which the last may have fewer: each would be asked for its
// size.
fn name_accepted(set: AsciiSet, name: &[u8]) -> bool
    requires { Letterless (bytes_of set) }
    ensures { result ≡ all (passes (bytes_of set) false) name.now }
{
    let mut rest = name;
    while rest.len() >= WORD {
        if !word_accepted(set, &rest[..WORD]) {
            return false;
        }
        rest = &rest[WORD..];
    }
    none_held(set, rest)
}

// A name in its room that the set holds no byte of.
fn name_right(set: AsciiSet, row: &[u8]) -> bool
    requires { (length row.now ≡ row_size) × Letterless (bytes_of set) }
    ensures { result ≡ name_right set row.now }
{
    padded(row) && name_accepted(set, name_of(row))
}

// The fields behind the name.
fn fields_right(row: &[u8]) -> bool
    requires { length row.now ≡ row_size }
    ensures { result ≡ fields_right row.now }
{
    row[KIND_AT] <= LAST_KIND && zeros(row) && product_in_range(row)
}

// Whether two rows have one name. Both have zeros after it, so that the name's whole room decides, a word at a time, and where it is the same the sizes
// do. Names that begin alike differ most often in the last word.
pub fn same_name(row: &[u8], other: &[u8]) -> bool
    requires row_len { (length row.now ≡ row_size) × (padded row.now ≡ true) }
    requires other_len { (length other.now ≡ row_size) × (padded other.now ≡ true) }
    ensures { result ≡ same (name row.now) (name other.now) }
{
    word_at(row, NAME_AT) == word_at(other, NAME_AT)
        && word_at(row, LAST_WORD_AT) == word_at(other, LAST_WORD_AT)
        && word_at(row, SECOND_WORD_AT) == word_at(other, SECOND_WORD_AT)
        && word_at(row, THIRD_WORD_AT) == word_at(other, THIRD_WORD_AT)
        && row[0] == other[0]
}

fn led_by_e(row: &[u8]) -> bool
    requires { (length row.now ≡ row_size) × (padded row.now ≡ true) }
    ensures { result ≡ led_by_e (name row.now) }
{
    let first = row[NAME_AT];
    first == b'e' || first == b'E'
}

// Whether a name holds no byte from 128 on. A set of two words does not say so: it holds none of them.
fn ascii_name(name: &[u8]) -> bool
    ensures { result ≡ all (between 0 127) name.now }
{
    name.iter().all(|b| *b <= 127)
}

// What makes a row of letters a numeral: seconds, and a name in ASCII.
fn ascii_seconds(row: &[u8]) -> bool
    requires { length row.now ≡ row_size }
    ensures { result ≡ asked_further Further.AsciiSeconds row.now }
{
    row[KIND_AT] == SECONDS && ascii_name(name_of(row))
}

// What is asked of a row after its form.
pub fn further_right(further: Further, row: &[u8]) -> bool
    requires { (length row.now ≡ row_size) × (padded row.now ≡ true) }
    ensures { result ≡ asked_further further row.now }
{
    match further {
        Further::Nothing => true,
        Further::NotLedByE => !led_by_e(row),
        Further::AsciiSeconds => ascii_seconds(row),
    }
}

// All that is asked of a row by itself; what is left is that no earlier row has its name.
pub fn row_alone(rule: RowRule, row: &[u8]) -> bool
    requires { (length row.now ≡ row_size) × Letterless (bytes_of rule.set) }
    ensures { result ≡ alone rule row.now }
{
    let set = rule.set;
    if !name_right(set, row) {
        return false;
    }
    if !fields_right(row) {
        return false;
    }
    further_right(rule.further, row)
}
