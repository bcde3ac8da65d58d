// The types that every layer shares. What their values mean is said in specs/, a file for each heading of document 01.

#![tactic(auto)]

// Bytes of the longest text that is read.
pub const LONGEST_TEXT: usize = 4_096;

// A length of time. Zero always has a plus sign.
#[derive(Clone, Copy, PartialEq, Eq)]
pub struct Length {
    pub negative: bool,
    pub seconds: u64,
    pub nanoseconds: u32,
}

// What an entry hands back: a number of document 01's table, a position, and a length, which is zero on a refusal.
#[derive(Clone, Copy, PartialEq, Eq)]
pub struct Answer {
    pub number: u8,
    pub position: usize,
    pub length: Length,
}

// What the shift total by value hands back: the answer, and the total then.
#[derive(Clone, Copy)]
pub struct ShiftedTotal {
    pub answer: Answer,
    pub total: Length,
}

// A set of bytes: byte b is in it if bit b % 64 of word b / 64 is 1. It can hold any of the 256 bytes, so that a wrong
// delimiter is refused and not unthinkable. Words, and no array, since an array in a struct is copied at each call.
#[derive(Clone, Copy)]
pub struct ByteSet {
    pub word0: u64,
    pub word1: u64,
    pub word2: u64,
    pub word3: u64,
}

// A conjunction: how many letters it has, and the letters, the first in the low byte. Both can be wrong.
#[derive(Clone, Copy)]
pub struct Conjunction {
    pub size: u8,
    pub letters: u64,
}

// The settings: seven switches, the inner and the outer delimiters, how many of the four conjunctions count, and the kind
// of a number without a unit.
#[derive(Clone, Copy)]
pub struct Settings {
    pub negatives: bool,
    pub fractions: bool,
    pub exponents: bool,
    pub infinity: bool,
    pub ago: bool,
    pub after_sign: bool,
    pub before_unit: bool,
    pub inner: ByteSet,
    pub outer: ByteSet,
    pub conjunctions: u8,
    pub first: Conjunction,
    pub second: Conjunction,
    pub third: Conjunction,
    pub fourth: Conjunction,
    pub default_kind: u8,
}

// A coefficient, as sign and magnitude, times ten to the power up - down.
#[derive(Clone, Copy)]
pub struct Multiplier {
    pub negative: bool,
    pub coefficient: u64,
    pub up: u16,
    pub down: u16,
}

// Digits of a text, from a place up to another.
#[derive(Clone, Copy)]
pub struct Span {
    pub start: usize,
    pub end: usize,
}

// The typed exponent, as sign and magnitude.
#[derive(Clone, Copy)]
pub struct Exponent {
    pub negative: bool,
    pub power: u16,
}

// What step 1 finds: the typed sign, and the place after it.
#[derive(Clone, Copy)]
pub struct Signed {
    pub negative: bool,
    pub next: usize,
}

// What steps 2 and 3 find: the digits before the point, leading zeros dropped, those after it, and the place after them.
#[derive(Clone, Copy)]
pub struct Number {
    pub whole: Span,
    pub fract: Span,
    pub next: usize,
}

// What step 4 finds: the exponent, and the place after it.
#[derive(Clone, Copy)]
pub struct Scaled {
    pub exponent: Exponent,
    pub next: usize,
}

// What step 6 finds: what the number is multiplied by, and the place after the unit.
#[derive(Clone, Copy)]
pub struct Unit {
    pub multiplier: Multiplier,
    pub next: usize,
}

// What a spoken number is: the numeral's row, and the place after its delimiters.
#[derive(Clone, Copy)]
pub struct Numeral {
    pub multiplier: Multiplier,
    pub next: usize,
}

// What step 6 finds for a spoken number: the kind and the row of its unit, and the place after it.
#[derive(Clone, Copy)]
pub struct SpokenUnit {
    pub kind: Multiplier,
    pub row: Multiplier,
    pub next: usize,
}

// One part as it was typed, with digits or as infinity, before it is evaluated.
#[derive(Clone, Copy)]
pub struct DurationRepr {
    pub negative: bool,
    pub infinite: bool,
    pub whole: Span,
    pub fract: Span,
    pub exponent: Exponent,
    pub multiplier: Multiplier,
}

// One part with a spoken number, before numeral, kind and row are multiplied.
#[derive(Clone, Copy)]
pub struct SpokenRepr {
    pub negative: bool,
    pub numeral: Multiplier,
    pub kind: Multiplier,
    pub row: Multiplier,
}

#[derive(Clone, Copy)]
pub enum Repr {
    Typed(DurationRepr),
    Spoken(SpokenRepr),
}

// A part read to its end, connection included.
#[derive(Clone, Copy)]
pub struct Part {
    pub repr: Repr,
    pub next: usize,
}

// A part evaluated: its length, and the place where the next part begins.
#[derive(Clone, Copy)]
pub struct Reading {
    pub length: Length,
    pub next: usize,
}

// Why something is refused: a case for each cause that document 01 tells apart, with its place.
#[derive(Clone, Copy)]
pub enum Refusal {
    // nothing stands at the place
    Nothing(usize),
    // the text ends right after a sign
    SignEnds(usize),
    // a run of delimiters, which starts at the place, ends the text
    DelimiterEnds(usize),
    // a point while fractions are off; a point with digits on neither side
    FractionOff(usize),
    FractionEmpty(usize),
    // an `e` while exponents are off; a byte where an exponent's digit is wanted; the text's end there
    ExponentOff(usize),
    ExponentByte(usize),
    ExponentEnds(usize),
    // the digit at which an exponent passes 32767, or -32768
    ExponentAbove(usize),
    ExponentBelow(usize),
    // a wrong letter of `inity`; the text's end within it, held by the place of `inf`; what follows it is no connection
    InfinityByte(usize),
    InfinityEnds(usize),
    InfinityGoesOn(usize),
    // the text ends with a conjunction, held by its first letter; what follows it is no delimiter, digit or sign
    ConjunctionEnds(usize),
    ConjunctionGoesOn(usize),
    // the part that starts here is negative while negatives are off; a length to be written is, where none can be
    NegativeForbidden(usize),
    // a part has no number here
    NoNumber(usize),
    // a spoken number has no unit here; a product of its numeral, kind and row is out of range
    NoUnit(usize),
    OutOfRange,
    // the card: a wrong delimiter, conjunction, default kind, size or row of the hall's table, of the line's, and of the numerals, of which a byte counts
    // the rows
    Delimiters,
    Conjunctions,
    DefaultKind,
    TableSize,
    BadRow(usize),
    LineSize,
    BadLineRow(u8),
    NumeralsSize,
    BadNumeral(u8),
    // an index beside a table, the hall's and the line's: its first entry that is not the true order's, or the number of rows, if it has another length
    WrongIndex(u8),
    WrongLineIndex(u8),
    // the text is longer than a text may be
    TextTooLong,
    // the buffer has no room for the length at this place
    NoRoom(usize),
    // the place lies beyond the text or the buffer
    Beyond(usize),
    // the length record is malformed
    Malformed,
    // an ISO timing: a byte that no right text has here, or the end of a text that stops short
    NotIso(usize),
    // a year's letter or a month's, which have no length
    YearOrMonth(usize),
    // its value is beyond the largest length
    TooLarge,
    // a stored line that is to be moved: it is no row's; its name is too long for the old form
    NoStoredRow(usize),
    NameTooLong(usize),
}
