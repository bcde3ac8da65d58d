// Names held against each other: a row's by words, two stretches byte for byte.
ghost use Rattle.std.specs.Prelude.{◌≡◌, true, length, take};
ghost use Rattle.rules.specs.Common.{same};
ghost use Rattle.rules.specs.SettingsAndUnitTable.{row_size, name, low_first};
ghost use Rattle.rows.specs.Named.{padded};
ghost use Rattle.index.specs.TheSortedIndex.{order, before};

use rows::fields::{NAME_AT, SECOND_WORD_AT};
use std::cmp::Ordering;
use words::{BYTE_BITS, WORD, with_byte, word_at};

// The first eight bytes of a name as a number, or as many as it has.
pub fn first_word(name: &[u8]) -> u64
    ensures { result ≡ low_first (take 8 name.now) }
{
    let size = name.len().min(WORD);
    let mut word = 0;
    for (i, byte) in name[..size].iter().enumerate() {
        word = with_byte(word, BYTE_BITS * i as u64, *byte);
    }
    word
}

// Whether a row has the name, of which the first word is lent too. Zeros stand after a row's name, so that its first word is that of its name: it is
// asked first, since most rows have another, and a name of up to eight bytes is told by it and the size.
pub fn has_name(row: &[u8], wanted: &[u8], first: u64) -> bool
    requires row_len { (length row.now ≡ row_size) × (padded row.now ≡ true) }
    requires first_value { first ≡ low_first (take 8 wanted.now) }
    ensures { result ≡ same (name row.now) wanted.now }
{
    if word_at(row, NAME_AT) != first {
        return false;
    }
    let size = row[0] as usize;
    if size != wanted.len() {
        return false;
    }
    if size <= WORD {
        return true;
    }
    let end = NAME_AT + size;
    row[SECOND_WORD_AT..end] == wanted[WORD..]
}

// How two names stand to each other. The first byte that differs decides; if none does, the shorter comes first. A loop of its own: the library's order of
// slices takes nearly half as many instructions more for an index that is made or held against the true order.
pub fn order(a: &[u8], b: &[u8]) -> Ordering
    ensures { result ≡ order a.now b.now }
{
    for i in 0..a.len() {
        if b.len() <= i {
            return Ordering::Greater;
        }
        if a[i] < b[i] {
            return Ordering::Less;
        }
        if b[i] < a[i] {
            return Ordering::Greater;
        }
    }
    if a.len() < b.len() {
        return Ordering::Less;
    }
    Ordering::Equal
}

// Whether a name comes before another.
pub fn before(a: &[u8], b: &[u8]) -> bool
    ensures { result ≡ before a.now b.now }
{
    match order(a, b) {
        Ordering::Less => true,
        Ordering::Equal => false,
        Ordering::Greater => false,
    }
}
