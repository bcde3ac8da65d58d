// Step 6: the unit, and `ago`.
ghost use Rattle.std.specs.Prelude.{◌≡◌, take};
ghost use Rattle.std.proofs.Math.Seq.{slice};
ghost use Rattle.rules.specs.declared.Settings.{Settings};
ghost use Rattle.rules.specs.Common.{run};
ghost use Rattle.rules.specs.NumbersHandedBack.{got};
ghost use Rattle.rules.specs.SettingsAsWords.{settings_of};
ghost use Rattle.rules.specs.SettingsAndUnitTable.{settings_check, low_first, find_row};
ghost use Rattle.rules.specs.ReadingOnePart.{in_stretch, closes_unit};
ghost use Rattle.settings.specs.Sets.{bytes_of};
ghost use Rattle.steps.specs.Stretches.{Scanned};
ghost use Rattle.steps.specs.Units.{Readable, stops_of, ago_read, unit_read};

use crate::bytes::is_next_duration;
use crate::delimiters::{is_delimiter, past, try_consume_delimiter};
use crate::letters::next_is_ignore_ascii_case;
use lookup::both_tables::UnitTables;
use rows::fields::{KIND_AT, row_multiplier};
use rules::{Multiplier, Refusal};
use settings::fields::ago;
use settings::sets::{AsciiSet, either, holds, inner_delimiters, outer_delimiters};
use words::{BYTE_BITS, WORD, with_byte};

// What follows a unit's name: where the unit ends, and whether `ago` negates it.
#[derive(Clone, Copy)]
pub struct Ago {
    pub negated: bool,
    pub next: usize,
}

// What a part takes of the row that its unit's name finds: the kind, and what the row itself multiplies by.
#[derive(Clone, Copy)]
pub struct UnitRow {
    pub kind: u8,
    pub own: Multiplier,
}

// A unit's name in a text, which begins at a known place: where it ends, and its first word.
#[derive(Clone, Copy)]
pub struct Stretch {
    pub end: usize,
    pub first: u64,
}

// `+`, `-` and the digits, as bits of a set's first word.
const NEXT_BYTES: u64 = 287_992_881_640_112_128;

// Letters of `ago`.
const AGO: usize = 3;

// The bytes before which a unit's name ends, as one set: with ago on the inner delimiters are among them. It depends on the settings
// alone, so that it is made once a text.
pub fn stops(settings: &[u64; 25]) -> AsciiSet
    requires { settings_check (settings_of settings.now) ≡ got tt }
    ensures { bytes_of result ≡ stops_of (settings_of settings.now) }
{
    let next = AsciiSet {
        low: NEXT_BYTES,
        high: 0,
    };
    let outside = either(outer_delimiters(settings), next);
    if ago(settings) {
        return either(outside, inner_delimiters(settings));
    }
    outside
}

// What `ago` must be followed by: the text's end, an outer delimiter, a digit or a sign.
fn closes_unit(settings: &[u64; 25], text: &[u8], place: usize) -> bool
    requires { settings_check (settings_of settings.now) ≡ got tt }
    ensures { result ≡ closes_unit (settings_of settings.now) text.now place }
{
    if text.len() <= place {
        return true;
    }
    let byte = text[place];
    holds(outer_delimiters(settings), byte) || is_next_duration(byte)
}

// With ago on, delimiters and `ago` after a unit negate it; otherwise the place goes back to before the delimiters.
pub fn parse_ago(settings: &[u64; 25], text: &[u8], place: usize) -> Result<Ago, Refusal>
    requires { settings_check (settings_of settings.now) ≡ got tt }
    ensures { result ≡ ago_read (settings_of settings.now) text.now place }
{
    let back = Ago {
        negated: false,
        next: place,
    };
    if !ago(settings) {
        return Ok(back);
    }
    let inner = inner_delimiters(settings);
    if !is_delimiter(inner, text, place) {
        return Ok(back);
    }
    let word = try_consume_delimiter(inner, text, place)?;
    if !next_is_ignore_ascii_case(b"ago", text, word) {
        return Ok(back);
    }
    let end = word + AGO;
    if !closes_unit(settings, text, end) {
        return Ok(back);
    }
    Ok(Ago {
        negated: true,
        next: end,
    })
}

// Where a unit's name ends, and its first eight bytes as a number, or as many as it has: they go into a word while they are scanned.
pub fn unit_stretch(stops: AsciiSet, text: &[u8], place: usize) -> Stretch
    ensures end_value { (s : Settings) → bytes_of stops ≡ stops_of s → result.end ≡ run (in_stretch s) text.now place }
    ensures first_value { result.first ≡ low_first (take 8 (slice place result.end text.now)) }
{
    let mut first = 0;
    for scanned in 0..WORD {
        let next = place + scanned;
        if text.len() <= next {
            return Stretch { end: next, first };
        }
        if holds(stops, text[next]) {
            return Stretch { end: next, first };
        }
        first = with_byte(first, BYTE_BITS * scanned as u64, text[next]);
    }
    Stretch {
        end: past(stops, false, text, place + WORD),
        first,
    }
}

// The row that has the stretch as its name. A number often has no unit, and then no row is asked.
fn find_unit<'a>(
    units: &UnitTables<'a, '_>,
    text: &[u8],
    place: usize,
    stretch: Stretch,
) -> &'a [u8]
    requires readable { Readable units.now.hall.now × Readable units.now.line.now }
    requires scanned { Scanned text.now place stretch }
    ensures { result.now ≡ find_row units.now.hall.now units.now.line.now (slice place stretch.end text.now) }
{
    let end = stretch.end;
    if end <= place {
        return &units.hall[..0];
    }
    let mut compared = 0;
    units.find_row(&text[place..end], stretch.first, &mut compared)
}

// The stretch looked up. For a typed number and for a spoken one, so that what is read of most parts is one piece of code.
pub fn parse_time_unit(
    units: &UnitTables,
    text: &[u8],
    place: usize,
    stretch: Stretch,
) -> Option<UnitRow>
    requires readable { Readable units.now.hall.now × Readable units.now.line.now }
    requires scanned { Scanned text.now place stretch }
    ensures { result ≡ unit_read (find_row units.now.hall.now units.now.line.now (slice place stretch.end text.now)) }
{
    let row = find_unit(units, text, place, stretch);
    if row.is_empty() {
        return None;
    }
    Some(UnitRow {
        kind: row[KIND_AT],
        own: row_multiplier(row),
    })
}
