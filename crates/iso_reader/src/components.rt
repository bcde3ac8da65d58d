// A component of an ISO timing: its digits, perhaps a mark and digits, and its letter.
ghost use Rattle.std.specs.Prelude.{◌≡◌, true, ℕ, eqb, drop, IfOk, ◌≤◌, length};
ghost use Rattle.rules.specs.Common.{sees};
ghost use Rattle.iso.specs.IsoTimings.{wanted, is_mark, kind_of, may_come, year_or_month, read_from};
ghost use Rattle.iso_reader.specs.Kinds.{kind_number, letter_kind, bound};
ghost use Rattle.iso_reader.specs.Steps.{number_outcome, component_outcome};

use crate::counted::{Counted, Kind, Typed};
use rules::Refusal;
use value::digits::parse_digits;

// Whether the byte stands at the place.
pub fn stands(text: &[u8], place: usize, byte: u8) -> bool
    ensures { result ≡ sees (eqb byte) text.now place }
{
    text.get(place) == Some(&byte)
}

fn mark_stands(text: &[u8], place: usize) -> bool
    ensures { result ≡ sees is_mark text.now place }
{
    stands(text, place, b'.') || stands(text, place, b',')
}

// A number at the place: one or more digits, and perhaps a mark and one or more. And the place after it. It is put where it is called, as
// is a component, since to hand back their slices through memory takes a fifth more instructions.
#[inline(always)]
fn number<'a>(text: &'a [u8], place: usize) -> Result<(Typed<'a>, usize), Refusal>
    ensures by_index { (k : ℕ) → number_outcome k text.now result ≡ read_from (wanted k) place (drop place text.now) }
    ensures within { IfOk result (λ n. n.1 ≤ length text.now) }
{
    let point = parse_digits(text, place).end;
    if point == place {
        return Err(Refusal::NotIso(place));
    }
    if !mark_stands(text, point) {
        let typed = Typed {
            whole: &text[place..point],
            fraction: &[],
        };
        return Ok((typed, point));
    }
    let end = parse_digits(text, point + 1).end;
    if end == point + 1 {
        return Err(Refusal::NotIso(end));
    }
    let typed = Typed {
        whole: &text[place..point],
        fraction: &text[point..end],
    };
    Ok((typed, end))
}

fn kind_of(letter: u8) -> Option<Kind>
    ensures { letter_kind result ≡ kind_of letter }
{
    match letter {
        b'S' => Some(Kind::Seconds),
        b'M' => Some(Kind::Minutes),
        b'H' => Some(Kind::Hours),
        b'D' => Some(Kind::Days),
        b'W' => Some(Kind::Weeks),
        _ => None,
    }
}

// Weeks or days before the first component, after another a kind below it.
fn may_come(below: Option<Kind>, kind: Kind) -> bool
    ensures { result ≡ may_come (bound below) (kind_number kind) }
{
    match below {
        None => kind >= Kind::Days,
        Some(last) => kind < last,
    }
}

// Before the first component `Y` and `M` are told from other bytes.
fn year_or_month(below: Option<Kind>, letter: u8) -> bool
    ensures { result ≡ year_or_month (bound below) letter }
{
    below.is_none() && matches!(letter, b'Y' | b'M')
}

// A component where a digit must come: the first one, or one of a kind below the given one.
#[inline(always)]
pub fn component<'a>(
    text: &'a [u8],
    place: usize,
    below: Option<Kind>,
) -> Result<Counted<'a>, Refusal>
    ensures outcome { component_outcome text.now result ≡ read_from (wanted (bound below)) place (drop place text.now) }
    ensures comes { IfOk result (λ c. may_come (bound below) (kind_number c.kind) ≡ true) }
    ensures within { IfOk result (λ c. c.next ≤ length text.now) }
{
    let (typed, at) = number(text, place)?;
    let Some(&letter) = text.get(at) else {
        return Err(Refusal::NotIso(at));
    };
    match kind_of(letter) {
        Some(kind) if may_come(below, kind) => Ok(Counted {
            kind,
            typed,
            next: at + 1,
        }),
        _ if year_or_month(below, letter) => Err(Refusal::YearOrMonth(at)),
        _ => Err(Refusal::NotIso(at)),
    }
}
