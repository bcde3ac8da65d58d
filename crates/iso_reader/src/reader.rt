// The reader: `P`, components, `T` and components; and the entry.
ghost use Rattle.std.specs.Prelude.{◌≡◌, true, drop};
ghost use Rattle.iso.specs.IsoTimings.{ANY, DAYS, may_come, wanted, closed, read_from, components, iso_answer};
ghost use Rattle.iso.specs.Laws.Worth.{fraction_worth};
ghost use Rattle.iso_reader.specs.Kinds.{kind_number};
ghost use Rattle.iso_reader.specs.Steps.{component_of, component_then};
ghost use Rattle.iso_reader.specs.Sums.{summed, due_then, valued};

use crate::components::{component, stands};
use crate::counted::{Counted, Kind};
use crate::worth::{closes, fraction_of, length_of, with_whole};
use answers::{done, refusal};
use rules::{Answer, LONGEST_TEXT, Length, Refusal};

// After a component that closes: the text ends, and what is behind the mark is added.
fn ended(total: Option<u64>, text: &[u8], counted: &Counted<'_>) -> Result<Length, Refusal>
    ensures { result ≡ due_then (read_from closed counted.now.next (drop counted.now.next text.now)) total (fraction_worth (component_of counted.now)) }
{
    if counted.next < text.len() {
        return Err(Refusal::NotIso(counted.next));
    }
    length_of(total, fraction_of(counted))
}

// Components after `T`, of kinds below days.
fn clock(text: &[u8], place: usize, total: Option<u64>) -> Result<Length, Refusal>
    ensures { result ≡ summed (read_from (wanted DAYS) place (drop place text.now)) total }
{
    let mut next = place;
    let mut sum = total;
    let mut least = Kind::Days;
    loop {
        let counted = component(text, next, Some(least))?;
        sum = with_whole(sum, &counted);
        if closes(&counted) {
            return ended(sum, text, &counted);
        }
        next = counted.next;
        if next >= text.len() {
            return length_of(sum, 0);
        }
        least = counted.kind;
    }
}

// After the first component, of weeks or days: the end, or `T`.
fn dated(text: &[u8], counted: &Counted<'_>) -> Result<Length, Refusal>
    requires { may_come ANY (kind_number counted.now.kind) ≡ true }
    ensures { result ≡ valued (component_then text.now counted.now) }
{
    let sum = with_whole(Some(0), counted);
    if closes(counted) {
        return ended(sum, text, counted);
    }
    match text.get(counted.next) {
        None => length_of(sum, 0),
        Some(b'T') => clock(text, counted.next + 1, sum),
        Some(_) => Err(Refusal::NotIso(counted.next)),
    }
}

// `P`, and behind it `T` or a first component.
fn timing(text: &[u8]) -> Result<Length, Refusal>
    ensures { result ≡ valued (components text.now) }
{
    if !stands(text, 0, b'P') {
        return Err(Refusal::NotIso(0));
    }
    if stands(text, 1, b'T') {
        return clock(text, 2, Some(0));
    }
    dated(text, &component(text, 1, None)?)
}

pub fn read_iso(text: &[u8]) -> Answer
    ensures { result ≡ iso_answer text.now }
{
    if text.len() > LONGEST_TEXT {
        return refusal(Refusal::TextTooLong);
    }
    match timing(text) {
        Err(cause) => refusal(cause),
        Ok(length) => done(text.len(), length),
    }
}
