// Several bytes of a text at once, as a number.
#![tactic(auto)]

ghost use Rattle.std.specs.Prelude.{◌≡◌, true, ℕ, ◌+◌, ◌*◌, ◌^◌, ◌≤◌, ◌<◌, length, take, drop};
ghost use Rattle.rules.specs.Common.{all, between};
ghost use Rattle.rules.specs.SettingsAndUnitTable.{LETTER, is, low_first};
ghost use Rattle.words.specs.Bytewise.{repeated};

// Bytes of a word, its bits, and those of a byte.
pub const WORD: usize = 8;

pub const WORD_BITS: u64 = 64;

pub const BYTE_BITS: u64 = 8;

// Eight bytes each: the bits of the high half, `0`, what takes the byte after `9` and no digit to 64, and 64.
const HIGH_HALVES: u64 = 17_361_641_481_138_401_520;

const ZEROS: u64 = 3_472_328_296_227_680_304;

const SIXES: u64 = 434_041_037_028_460_038;

const SIXTY_FOURS: u64 = 4_629_771_061_636_907_072;

// The high bit of each of eight bytes; the bit that tells a small letter from its capital; and what takes `a`, and the byte after `z`, to 128.
pub const HIGH_BITS: u64 = 9_259_542_123_273_814_144;

const CASE_BITS: u64 = 2_314_885_530_818_453_536;

const FROM_A: u64 = 2_242_545_357_980_376_863;

const PAST_Z: u64 = 361_700_864_190_383_365;

// The number that two bytes spell, low byte first, from this place on; then four, then eight: a whole word is read at once.
pub fn short_at(bytes: &[u8], at: usize) -> u16
    requires { at + 2 ≤ length bytes.now }
    ensures { result ≡ low_first (take 2 (drop at bytes.now)) }
{
    u16::from_le_bytes(*bytes[at..].first_chunk().unwrap())
}

pub fn half_at(bytes: &[u8], at: usize) -> u32
    requires { at + 4 ≤ length bytes.now }
    ensures { result ≡ low_first (take 4 (drop at bytes.now)) }
{
    u32::from_le_bytes(*bytes[at..].first_chunk().unwrap())
}

pub fn word_at(bytes: &[u8], at: usize) -> u64
    requires { at + 8 ≤ length bytes.now }
    ensures { result ≡ low_first (take 8 (drop at bytes.now)) }
{
    u64::from_le_bytes(*bytes[at..].first_chunk().unwrap())
}

// A word with one byte more, above the bits that it has.
pub fn with_byte(word: u64, bits: u64, byte: u8) -> u64
    requires { (word < 2 ^ bits) × (bits ≤ 56) }
    ensures { result ≡ word + byte * 2 ^ bits }
{
    word + ((byte as u64) << bits)
}

// Whether eight bytes are digits: the high half of each is that of `0`, and 6 more does not carry out of the low half. Two numbers fewer are held
// for it than if the low halves were taken by themselves.
pub fn eight_digits(bytes: &[u8], at: usize) -> bool
    requires { at + 8 ≤ length bytes.now }
    ensures { result ≡ true → all (between 48 57) (take 8 (drop at bytes.now)) ≡ true }
{
    let word = word_at(bytes, at);
    if word & HIGH_HALVES != ZEROS {
        return false;
    }
    (word + SIXES) & SIXTY_FOURS == 0
}

// Whether eight bytes are the digit `0`.
pub fn eight_zeros(bytes: &[u8], at: usize) -> bool
    requires { at + 8 ≤ length bytes.now }
    ensures { result ≡ true → all (between 48 48) (take 8 (drop at bytes.now)) ≡ true }
{
    word_at(bytes, at) == ZEROS
}

// Which of eight bytes are letters, by the high bit of each; none, if a byte is from 128 on. As small letters they come to 128 with what `a` lacks of
// it, and do not with what the byte after `z` lacks.
pub fn letter_marks(bytes: &[u8], at: usize) -> u64
    requires { at + 8 ≤ length bytes.now }
    ensures { (n : ℕ) → 1 ≤ n → n ≤ 8 → result ≡ repeated 128 n → all (is LETTER) (take n (drop at bytes.now)) ≡ true }
{
    let word = word_at(bytes, at);
    if word & HIGH_BITS != 0 {
        return 0;
    }
    let small = word | CASE_BITS;
    ((small + FROM_A) ^ (small + PAST_Z)) & HIGH_BITS
}
