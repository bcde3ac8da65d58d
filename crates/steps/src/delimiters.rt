// Runs of delimiters.
ghost use Rattle.std.specs.Prelude.{◌≡◌, true};
ghost use Rattle.rules.specs.NumbersHandedBack.{got};
ghost use Rattle.rules.specs.SettingsAsWords.{settings_of};
ghost use Rattle.rules.specs.Common.{sees, run};
ghost use Rattle.rules.specs.SettingsAndUnitTable.{holds, settings_check};
ghost use Rattle.rules.specs.ReadingOnePart.{delimiters, gap};
ghost use Rattle.settings.specs.Sets.{bytes_of};
ghost use Rattle.settings.specs.Sets.{passes};

use rules::Refusal;
use settings::sets::{AsciiSet, holds, inner_delimiters};

// Whether a byte of the set stands at the place.
pub fn is_delimiter(set: AsciiSet, text: &[u8], place: usize) -> bool
    ensures { result ≡ sees (holds (bytes_of set)) text.now place }
{
    if text.len() <= place {
        return false;
    }
    holds(set, text[place])
}

// The place after the bytes from here on that are all in the set or, with held false, all outside it. A loop by index, for its speed (see the crate's head);
// inside and outside one set is all that is asked for, and so the flag.
pub fn past(set: AsciiSet, held: bool, text: &[u8], place: usize) -> usize
    ensures { result ≡ run (passes (bytes_of set) held) text.now place }
{
    let mut next = place;
    while next < text.len() {
        if holds(set, text[next]) != held {
            return next;
        }
        next += 1;
    }
    next
}

// The run of delimiters that begins at the place. One that ends the text is refused at its first byte.
pub fn try_consume_delimiter(set: AsciiSet, text: &[u8], place: usize) -> Result<usize, Refusal>
    requires { sees (holds (bytes_of set)) text.now place ≡ true }
    ensures { result ≡ delimiters (bytes_of set) text.now place }
{
    let end = past(set, true, text, place + 1);
    if text.len() <= end {
        return Err(Refusal::DelimiterEnds(place));
    }
    Ok(end)
}

// Inner delimiters, if switched on.
pub fn parse_number_delimiter(
    on: bool,
    settings: &[u64; 25],
    text: &[u8],
    place: usize,
) -> Result<usize, Refusal>
    requires { settings_check (settings_of settings.now) ≡ got tt }
    ensures { result ≡ gap on (settings_of settings.now) text.now place }
{
    if !on {
        return Ok(place);
    }
    let inner = inner_delimiters(settings);
    if !is_delimiter(inner, text, place) {
        return Ok(place);
    }
    try_consume_delimiter(inner, text, place)
}
