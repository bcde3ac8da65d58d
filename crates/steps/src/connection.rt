// Step 7: the connection of two parts.
ghost use Rattle.std.specs.Prelude.{◌≡◌};
ghost use Rattle.rules.specs.NumbersHandedBack.{got};
ghost use Rattle.rules.specs.SettingsAsWords.{settings_of};
ghost use Rattle.rules.specs.SettingsAndUnitTable.{conjunctions_of, settings_check};
ghost use Rattle.rules.specs.ReadingOnePart.{conjunction_size, after_conjunction, connection};

use crate::bytes::is_next_duration;
use crate::delimiters::{is_delimiter, try_consume_delimiter};
use crate::letters::next_is_letters;
use rules::Refusal;
use settings::fields::{conjunction_at, conjunctions};
use settings::sets::outer_delimiters;

// How many letters the first listed conjunction that stands at the place has; none has 0, as its definition has it. A loop by index, for its speed (see the
// crate's head).
fn conjunction_size(settings: &[u64; 25], text: &[u8], place: usize) -> u8
    requires { settings_check (settings_of settings.now) ≡ got tt }
    ensures { result ≡ conjunction_size (conjunctions_of (settings_of settings.now)) text.now place }
{
    let count = conjunctions(settings);
    let mut i = 0;
    while i < count {
        let conjunction = conjunction_at(settings, i);
        if next_is_letters(conjunction.size, conjunction.letters, text, place) {
            return conjunction.size;
        }
        i += 1;
    }
    0
}

// What follows a conjunction: delimiters, or at once the next part.
fn after_conjunction(
    settings: &[u64; 25],
    text: &[u8],
    word: usize,
    place: usize,
) -> Result<usize, Refusal>
    requires { settings_check (settings_of settings.now) ≡ got tt }
    ensures { result ≡ after_conjunction (settings_of settings.now) text.now word place }
{
    let outer = outer_delimiters(settings);
    if text.len() <= place {
        return Err(Refusal::ConjunctionEnds(word));
    }
    if is_delimiter(outer, text, place) {
        return try_consume_delimiter(outer, text, place);
    }
    if is_next_duration(text[place]) {
        return Ok(place);
    }
    Err(Refusal::ConjunctionGoesOn(place))
}

// At an outer delimiter: the run, and a conjunction if one is there.
pub fn try_consume_connection(
    settings: &[u64; 25],
    text: &[u8],
    place: usize,
) -> Result<usize, Refusal>
    requires { settings_check (settings_of settings.now) ≡ got tt }
    ensures { result ≡ connection (settings_of settings.now) text.now place }
{
    let outer = outer_delimiters(settings);
    if !is_delimiter(outer, text, place) {
        return Ok(place);
    }
    let word = try_consume_delimiter(outer, text, place)?;
    let size = conjunction_size(settings, text, word) as usize;
    if size == 0 {
        return Ok(word);
    }
    after_conjunction(settings, text, word, word + size)
}
