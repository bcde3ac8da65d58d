// A component of an ISO timing, as it was typed.
ghost use Rattle.std.specs.Prelude.{◌≡◌, true, drop};
ghost use Rattle.rules.specs.Common.{all};
ghost use Rattle.rules.specs.SettingsAndUnitTable.{DIGIT, is};

// The units, from the shortest on.
#[derive(Clone, Copy, PartialEq, Eq, PartialOrd, Ord)]
pub enum Kind {
    Seconds,
    Minutes,
    Hours,
    Days,
    Weeks,
}

// A number: its digits, and its mark with the digits behind it, or nothing.
#[derive(Clone, Copy)]
pub struct Typed<'a> {
    pub whole: &'a [u8],
    pub fraction: &'a [u8],
    ghost digits: { all (is DIGIT) whole.now ≡ true },
    ghost decimals: { all (is DIGIT) (drop 1 fraction.now) ≡ true },
}

// A number, the kind of the unit whose letter stands at its end, and the place after the letter. The kind comes first: it is one byte, as
// is what a refusal begins with, so that no place shares a word with it where the two meet.
#[derive(Clone, Copy)]
pub struct Counted<'a> {
    pub kind: Kind,
    pub typed: Typed<'a>,
    pub next: usize,
}
