// A number moved by a power of ten, as seconds and attoseconds. Digits move across the point and zeros are put in or
// cut off, so that no number on the way is wider than 64 bits.
ghost use Rattle.std.specs.Prelude.{◌≡◌, true, ◌++◌, ◌+◌, ◌-◌, ◌*◌, ◌/◌, ◌≤◌, ◌<◌, ◌^◌, length, take, drop};
ghost use Rattle.rules.specs.Common.{all};
ghost use Rattle.rules.specs.SettingsAndUnitTable.{DIGIT, is};
ghost use Rattle.rules.specs.Evaluation.{spelled, attos};
ghost use Rattle.value.specs.Numbers.{Counts, as_word, counted, places, shifted_of, summed, with_attos};

use crate::digits::{Taken, append};
use tables::pow10;

// A number of seconds with eighteen decimals.
#[derive(Clone, Copy)]
pub struct Shifted {
    pub seconds: u64,
    pub attos: u64,
}

// The digits of a typed number, those before its point and those after it. A spoken one has none.
#[derive(Clone, Copy)]
pub struct Digits<'a> {
    pub whole: &'a [u8],
    pub fract: &'a [u8],
    ghost whole_digits: { all (is DIGIT) whole.now ≡ true },
    ghost fract_digits: { all (is DIGIT) fract.now ≡ true },
}

// How many decimals a number keeps.
const DECIMALS: usize = 18;

// With more decimals nothing is left of MOST_DIGITS digits.
const MOST_DECIMALS: usize = 36;

// The largest power of ten that a u64 holds.
const MOST_ZEROS: usize = 19;

// As many digits a u64 holds whatever they are.
const MOST_DIGITS: usize = 19;

// Zero with zeros put in is zero, however many; any other number is tested by a division before it is multiplied,
// since the library's checked product asks for the half that is not kept too, and a board's multiplier may have 32 bits. Most numbers take no
// zeros, and are spared the division.
fn put_zeros(number: u64, zeros: usize) -> Option<u64>
    ensures { result ≡ as_word (number * 10 ^ zeros) }
{
    if number == 0 || zeros == 0 {
        return Some(number);
    }
    if MOST_ZEROS < zeros {
        return None;
    }
    let power = pow10(zeros);
    if u64::MAX / power < number {
        return None;
    }
    Some(number * power)
}

// A number with no decimals, if its seconds fit.
fn seconds_alone(word: Option<u64>) -> Option<Shifted>
    ensures { result ≡ with_attos word 0 }
{
    word.map(|seconds| Shifted { seconds, attos: 0 })
}

// A number with zeros put in.
fn raise(number: u64, zeros: usize) -> Option<Shifted>
    ensures { result ≡ shifted_of (number * 10 ^ zeros * 10 ^ 18) }
{
    seconds_alone(put_zeros(number, zeros))
}

// A number of which the last digits are decimals. Beyond eighteen of them there are no seconds, and the last are cut off.
fn lower(number: u64, decimals: usize) -> Option<Shifted>
    requires { number < 10 ^ 19 }
    ensures { result ≡ shifted_of (number * 10 ^ 18 / 10 ^ decimals) }
{
    if decimals <= DECIMALS {
        let power = pow10(decimals);
        return Some(Shifted {
            seconds: number / power,
            attos: number % power * pow10(DECIMALS - decimals),
        });
    }
    if decimals <= MOST_DECIMALS {
        return Some(Shifted {
            seconds: 0,
            attos: number / pow10(decimals - DECIMALS),
        });
    }
    Some(Shifted {
        seconds: 0,
        attos: 0,
    })
}

// A number that fits moves by word arithmetic, either way.
fn shift_word(number: u64, before: usize, after: usize) -> Option<Shifted>
    requires { number < 10 ^ 19 }
    ensures { result ≡ shifted_of (number * 10 ^ (18 + before) / 10 ^ after) }
{
    if before < after {
        return lower(number, after - before);
    }
    raise(number, before - after)
}

impl<'a> Digits<'a> {
    // Both as one number, after the digits that spelled so_far.
    fn append_to(self, so_far: u64) -> Option<u64>
        ensures { result ≡ as_word (spelled so_far (self.entry.whole.now ++ self.entry.fract.now)) }
    {
        let front = append(so_far, self.whole)?;
        append(front, self.fract)
    }

    // The same of a number that may have many digits. The sum of those that start with no `0` stops at the nineteenth, and what is
    // left goes on from there.
    fn spelled_of(self, number: u64) -> Option<u64>
        requires { number ≡ summed 0 (self.whole.now ++ self.fract.now) }
        ensures { result ≡ as_word (spelled 0 (self.entry.whole.now ++ self.entry.fract.now)) }
    {
        let whole = self.whole;
        if whole.len() >= MOST_DIGITS && whole[0] != b'0' {
            let rest = Digits {
                whole: &whole[MOST_DIGITS..],
                fract: self.fract,
            };
            return rest.append_to(number);
        }
        self.append_to(0)
    }

    // The first so many digits, counted over both, and the others.
    fn split_at(self, point: usize) -> (Digits<'a>, Digits<'a>)
        ensures front { result.0.whole.now ++ result.0.fract.now ≡ take point (self.entry.whole.now ++ self.entry.fract.now) }
        ensures back { result.1.whole.now ++ result.1.fract.now ≡ drop point (self.entry.whole.now ++ self.entry.fract.now) }
    {
        let in_whole = point.min(self.whole.len());
        let in_fract = (point - in_whole).min(self.fract.len());
        let (whole_front, whole_back) = self.whole.split_at(in_whole);
        let (fract_front, fract_back) = self.fract.split_at(in_fract);
        let front = Digits {
            whole: whole_front,
            fract: fract_front,
        };
        let back = Digits {
            whole: whole_back,
            fract: fract_back,
        };
        (front, back)
    }

    // The digits before a point, and zeros.
    fn seconds(self, zeros: usize) -> Option<u64>
        ensures { result ≡ as_word (spelled 0 (self.entry.whole.now ++ self.entry.fract.now) * 10 ^ zeros) }
    {
        let number = self.append_to(0)?;
        put_zeros(number, zeros)
    }

    // The first digits after a point, as many as there is room for, and zeros. Often there are none, or they fill the room.
    fn attos(self, room: usize) -> u64
        requires { room ≤ 18 }
        ensures { result ≡ places room (self.entry.whole.now ++ self.entry.fract.now) }
    {
        let none = Taken { number: 0, room };
        let both = none.then(self.whole).then(self.fract);
        if both.number == 0 || both.room == 0 {
            return both.number;
        }
        both.number * pow10(both.room)
    }

    // Any number. The point stands after the whole digits and moves; where it would move past the first of them, zeros come
    // before the decimals and leave less room.
    fn shift_large(self, up: u32, down: u32) -> Option<Shifted>
        ensures { result ≡ shifted_of (attos (spelled 0 (self.entry.whole.now ++ self.entry.fract.now)) (length self.entry.fract.now) up down) }
    {
        let before = self.whole.len() + up as usize;
        let after = down as usize;
        let point = before.saturating_sub(after);
        let digits = self.whole.len() + self.fract.len();
        let (front, back) = self.split_at(point);
        let seconds = front.seconds(point.saturating_sub(digits))?;
        let room = DECIMALS.saturating_sub(after.saturating_sub(before));
        Some(Shifted {
            seconds,
            attos: back.attos(room),
        })
    }

    // A number of which all digits are seconds.
    fn shift_whole(self, number: u64) -> Option<Shifted>
        requires { number ≡ summed 0 (self.whole.now ++ self.fract.now) }
        ensures { result ≡ shifted_of (spelled 0 (self.entry.whole.now ++ self.entry.fract.now) * 10 ^ 18) }
    {
        seconds_alone(self.spelled_of(number))
    }

    // The number times ten to the power up - down. Most numbers have few digits, and then their sum is all of them. A spoken one
    // has none, and is 1.
    pub fn shift(self, number: u64, up: u32, down: u32) -> Option<Shifted>
        requires { Counts number (self.whole.now ++ self.fract.now) }
        ensures { result ≡ shifted_of (attos (counted number (self.entry.whole.now ++ self.entry.fract.now)) (length self.entry.fract.now) up down) }
    {
        let behind = self.fract.len();
        let before = up as usize;
        let after = behind + down as usize;
        if self.whole.len() + behind <= MOST_DIGITS {
            return shift_word(number, before, after);
        }
        if before == after {
            return self.shift_whole(number);
        }
        self.shift_large(up, down)
    }
}
