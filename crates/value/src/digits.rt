// Digits of a text: where a run of them ends, and the number that they spell.
ghost use Rattle.std.specs.Prelude.{◌≡◌, true, Bool, ℕ, ◌+◌, ◌*◌, ◌-◌, ◌≤◌, ◌<◌, ◌^◌, min, eqb, ltb, length, take, drop};
ghost use Rattle.std.proofs.Math.Seq.{slice};
ghost use Rattle.rules.specs.Common.{all, between, run};
ghost use Rattle.rules.specs.SettingsAndUnitTable.{DIGIT, is};
ghost use Rattle.rules.specs.Evaluation.{spelled};
ghost use Rattle.value.specs.Numbers.{as_word, summed};

use rules::Span;
use words::{eight_digits, eight_zeros};

// A number, and where the digits that it was summed up from end.
#[derive(Clone, Copy)]
pub struct Summed {
    pub number: u64,
    pub end: usize,
}

// The digits before a point, and the number that they were summed up to.
#[derive(Clone, Copy)]
pub struct SummedWhole {
    pub whole: Span,
    pub number: u64,
}

// A number of a few digits, and how many more it has room for: nineteen digits always fit a u64.
#[derive(Clone, Copy)]
pub struct Taken {
    pub number: u64,
    pub room: usize,
    ghost fits: { (room ≤ 19) × (number < 10 ^ (19 - room)) },
}

// After this many tens a digit may still fit, if it is at most LAST_DIGIT: together they are the largest u64.
const MOST_TENS: u64 = 1_844_674_407_370_955_161;

const LAST_DIGIT: u64 = 5;

// Below this a u64 has room for one more digit, whatever it is.
const SURE: u64 = 1_000_000_000_000_000_000;

// The byte `0`.
const ZERO: u64 = 48;

// A byte as a number, for crates that count with digits of their own.
pub fn wide(byte: u8) -> u64
    ensures { result ≡ byte }
{
    u64::from(byte)
}

// The place after the bytes from low to high that stand at the place and after it.
fn past(text: &[u8], place: usize, low: u8, high: u8) -> usize
    ensures { result ≡ run (between low high) text.now place }
{
    for next in place..text.len() {
        let byte = text[next];
        if byte < low || high < byte {
            return next;
        }
    }
    place.max(text.len())
}

// Bytes passed eight and eight at a time while there are so many: the run of what the test stands for goes on from there. It is no chain of
// chunks, since two eights are tested for one test of what is left.
fn past_eights<E: Fn(usize) -> bool>(text: &[u8], place: usize, eight: E) -> usize
    requires { (at : ℕ) → at + 8 ≤ length text.now → E.pre eight at }
    ensures { (test : ℕ → Bool) → ((at : ℕ) → at + 8 ≤ length text.now → E.post eight at true → all test (take 8 (drop at text.now)) ≡ true) → run test text.now result ≡ run test text.now place }
{
    if text.len() < place {
        return place;
    }
    let mut next = place;
    while text.len() - next >= 16 {
        if !eight(next) {
            return next;
        }
        if !eight(next + 8) {
            return next + 8;
        }
        next += 16;
    }
    next
}

// The place after the digits that stand at the place and after it.
fn past_digits(text: &[u8], place: usize) -> usize
    ensures { result ≡ run (is DIGIT) text.now place }
{
    let next = past_eights(text, place, |at| eight_digits(text, at));
    past(text, next, b'0', b'9')
}

// The same for zeros. Most numbers start with none.
fn past_zeros(text: &[u8], place: usize) -> usize
    ensures { result ≡ run (eqb 48) text.now place }
{
    if text.len() <= place || text[place] != b'0' {
        return place;
    }
    let next = past_eights(text, place, |at| eight_zeros(text, at));
    past(text, next, b'0', b'0')
}

// The digits from a place on, summed up after those that spelled so_far for as long as a word surely holds one more, so that
// no digit is read twice; those after them are only passed.
pub fn sum_digits(so_far: u64, text: &[u8], place: usize) -> Summed
    ensures { (result.end ≡ run (is DIGIT) text.now place) × (result.number ≡ summed so_far (slice place result.end text.now)) }
{
    let mut number = so_far;
    for next in place..text.len() {
        let byte = text[next];
        if byte < b'0' || b'9' < byte {
            return Summed { number, end: next };
        }
        if SURE <= number {
            let end = past_digits(text, next);
            return Summed { number, end };
        }
        number = number * 10 + (u64::from(byte) - ZERO);
    }
    let end = place.max(text.len());
    Summed { number, end }
}

// Leading zeros spell nothing: the number starts after them, and the digits go on from there.
pub fn parse_digits_strip_zeros(text: &[u8], place: usize) -> SummedWhole
    ensures { (result.whole ≡ record { start = run (eqb 48) text.now place; end = run (is DIGIT) text.now place }) × (result.number ≡ summed 0 (slice result.whole.start result.whole.end text.now)) }
{
    let start = past_zeros(text, place);
    let digits = sum_digits(0, text, start);
    SummedWhole {
        whole: Span {
            start,
            end: digits.end,
        },
        number: digits.number,
    }
}

// Zeros count after the point, so none is dropped.
pub fn parse_digits(text: &[u8], place: usize) -> Span
    ensures { result ≡ record { start = place; end = run (is DIGIT) text.now place } }
{
    Span {
        start: place,
        end: past_digits(text, place),
    }
}

// The place so many bytes into a span, and the span's end if it has fewer.
pub fn place_within(start: usize, end: usize, count: usize) -> usize
    ensures { result ≡ start + min count (end - start) }
{
    if end <= start {
        return start;
    }
    if end - start < count {
        return end;
    }
    start + count
}

// Whether a u64 holds a number with one more digit behind it. It is seen before the number is multiplied: the library's checked product asks for the
// half that is not kept too, and a board's multiplier may have 32 bits. The tests stand one by one: as one expression all three are made for each digit, which
// takes 75,004 instructions in the place of 46,354 for an ISO text of 4,093 zeros.
fn takes_digit(number: u64, digit: u64) -> bool
    requires { digit ≤ 9 }
    ensures { result ≡ ltb (number * 10 + digit) (2 ^ 64) }
{
    if number < MOST_TENS {
        return true;
    }
    if MOST_TENS < number {
        return false;
    }
    digit <= LAST_DIGIT
}

// The digits after those that spelled so_far, if a u64 holds the number. A number only grows, so the first overflow decides.
pub fn append(so_far: u64, digits: &[u8]) -> Option<u64>
    requires { all (is DIGIT) digits.now ≡ true }
    ensures { result ≡ as_word (spelled so_far digits.now) }
{
    let mut number = so_far;
    for byte in digits {
        let digit = u64::from(*byte) - ZERO;
        if !takes_digit(number, digit) {
            return None;
        }
        number = number * 10 + digit;
    }
    Some(number)
}

// The same of the digits of a span.
pub fn append_digits(so_far: u64, text: &[u8], start: usize, end: usize) -> Option<u64>
    requires end_in_bounds { end ≤ length text.now }
    requires text_value { all (is DIGIT) (slice start end text.now) ≡ true }
    ensures { result ≡ as_word (spelled so_far (slice start end text.now)) }
{
    if end <= start {
        return Some(so_far);
    }
    append(so_far, &text[start..end])
}

impl Taken {
    // At most as many digits more as there is room for. They fit, so that nothing is tested on the way.
    pub fn then(self, digits: &[u8]) -> Taken
        requires { all (is DIGIT) digits.now ≡ true }
        ensures number { result.number ≡ spelled self.number (take self.room digits.now) }
        ensures room { result.room ≡ self.room - length digits.now }
    {
        let count = self.room.min(digits.len());
        let mut number = self.number;
        for byte in &digits[..count] {
            number = number * 10 + (u64::from(*byte) - ZERO);
        }
        Taken {
            number,
            room: self.room - count,
        }
    }
}
