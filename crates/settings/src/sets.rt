// Sets of bytes: which bytes a set of delimiters may hold, and sets of two words, which is what an accepted one needs.
ghost use Rattle.std.specs.Prelude.{◌≡◌, true};
ghost use Rattle.rules.specs.NumbersHandedBack.{got};
ghost use Rattle.rules.specs.SettingsAsWords.{settings_of};
ghost use Rattle.rules.specs.SettingsAndUnitTable.{holds, delimits, empty, settings_check};
ghost use Rattle.settings.specs.Sets.{bytes_of, either};

use crate::fields::{inner, outer};
use rules::ByteSet;

// A set of bytes below 128: byte b is in it if bit b % 64 of its word is 1.
#[derive(Clone, Copy)]
pub struct AsciiSet {
    pub low: u64,
    pub high: u64,
}

// Whether every byte that the set holds may delimit. Each run of bytes that may not is a run of bits of one word, which is
// tested at once and not byte by byte.
pub fn delimits(set: ByteSet) -> bool
    ensures { result ≡ delimits set 0 256 }
{
    // `+`; `-` and `.`; the ten digits; `A` to `Z`, and `a` to `z`; 128 and above
    (set.word0 >> 43) % 2 == 0
        && (set.word0 >> 45) % 4 == 0
        && (set.word0 >> 48) % 1_024 == 0
        && (set.word1 >> 1) % 67_108_864 == 0
        && (set.word1 >> 33) % 67_108_864 == 0
        && set.word2 == 0
        && set.word3 == 0
}

// A set of delimiters as two words: no byte from 128 on delimits.
fn ascii(set: ByteSet) -> AsciiSet
    requires { delimits set 0 256 ≡ true }
    ensures { bytes_of result ≡ set }
{
    AsciiSet {
        low: set.word0,
        high: set.word1,
    }
}

// The inner and the outer delimiters of accepted settings.
pub fn inner_delimiters(settings: &[u64; 25]) -> AsciiSet
    requires { settings_check (settings_of settings.now) ≡ got tt }
    ensures { bytes_of result ≡ (settings_of settings.now).inner }
{
    ascii(inner(settings))
}

pub fn outer_delimiters(settings: &[u64; 25]) -> AsciiSet
    requires { settings_check (settings_of settings.now) ≡ got tt }
    ensures { bytes_of result ≡ (settings_of settings.now).outer }
{
    ascii(outer(settings))
}

pub fn holds(set: AsciiSet, b: u8) -> bool
    ensures { result ≡ holds (bytes_of set) b }
{
    let bit = b as u64;
    if bit < 64 {
        return (set.low >> (bit % 64)) % 2 == 1;
    }
    if bit < 128 {
        return (set.high >> (bit % 64)) % 2 == 1;
    }
    false
}

// The bytes that one of two sets holds.
pub fn either(a: AsciiSet, b: AsciiSet) -> AsciiSet
    ensures { bytes_of result ≡ either (bytes_of a) (bytes_of b) }
{
    AsciiSet {
        low: a.low | b.low,
        high: a.high | b.high,
    }
}

// Whether the set holds no byte.
pub fn empty(set: AsciiSet) -> bool
    ensures { result ≡ empty (bytes_of set) }
{
    set.low == 0 && set.high == 0
}
