// A spoken number: a numeral, and the delimiters behind it.
ghost use Rattle.std.specs.Prelude.{◌≡◌};
ghost use Rattle.rules.specs.NumbersHandedBack.{got};
ghost use Rattle.rules.specs.SettingsAsWords.{settings_of};
ghost use Rattle.rules.specs.SettingsAndUnitTable.{settings_check};
ghost use Rattle.steps.specs.Numerals.{Sayable, numeral_row};

use crate::delimiters::{past, try_consume_delimiter};
use lookup::names::first_word;
use lookup::rows_in_order::find;
use rules::Refusal;
use settings::sets::inner_delimiters;

// The row of a numeral, and the place after its delimiters.
#[derive(Clone, Copy)]
pub struct FoundNumeral {
    pub row: usize,
    pub next: usize,
}

// The stretch up to an inner delimiter, looked up. What is no numeral, or ends the text, is no number. Most cards have no numerals.
pub fn parse_numeral(
    settings: &[u64; 25],
    numerals: &[u8],
    text: &[u8],
    place: usize,
) -> Result<FoundNumeral, Refusal>
    requires settings_value { settings_check (settings_of settings.now) ≡ got tt }
    requires sayable { Sayable numerals.now }
    ensures { result ≡ numeral_row (settings_of settings.now) numerals.now text.now place }
{
    if numerals.len() == 0 {
        return Err(Refusal::NoNumber(place));
    }
    let inner = inner_delimiters(settings);
    let end = past(inner, false, text, place);
    if text.len() <= end {
        return Err(Refusal::NoNumber(place));
    }
    let word = &text[place..end];
    let searched = find(numerals, word, first_word(word));
    let Some(row) = searched.found else {
        return Err(Refusal::NoNumber(place));
    };
    let next = try_consume_delimiter(inner, text, end)?;
    Ok(FoundNumeral { row, next })
}
