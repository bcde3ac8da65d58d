// Infinity, after `inf`.
ghost use Rattle.std.specs.Prelude.{◌≡◌, ◌+◌, ◌≤◌, length};
ghost use Rattle.rules.specs.NumbersHandedBack.{got};
ghost use Rattle.rules.specs.SettingsAsWords.{settings_of};
ghost use Rattle.rules.specs.SettingsAndUnitTable.{settings_check};
ghost use Rattle.rules.specs.ReadingOnePart.{closes_infinity};
ghost use Rattle.steps.specs.Infinity.{infinity_long, infinity_word};

use crate::delimiters::is_delimiter;
use crate::letters::letters_matching;
use rules::Refusal;
use settings::sets::outer_delimiters;

// Letters of `inf`, and of `inity`.
const INF: usize = 3;

const INITY: usize = 5;

// What the word must be followed by: the text's end, or a connection.
fn closes_infinity(settings: &[u64; 25], text: &[u8], place: usize) -> bool
    requires { settings_check (settings_of settings.now) ≡ got tt }
    ensures { result ≡ closes_infinity (settings_of settings.now) text.now place }
{
    if text.len() <= place {
        return true;
    }
    is_delimiter(outer_delimiters(settings), text, place)
}

// The place after `infinity`, of which `inf` has been read.
fn parse_inity(settings: &[u64; 25], text: &[u8], inf: usize) -> Result<usize, Refusal>
    requires settings_value { settings_check (settings_of settings.now) ≡ got tt }
    requires inf_in_bounds { inf + 3 ≤ length text.now }
    ensures { result ≡ infinity_long (settings_of settings.now) text.now inf }
{
    let start = inf + INF;
    let letters = letters_matching(b"inity", text, start);
    let end = start + letters;
    if letters < INITY {
        if text.len() <= end {
            return Err(Refusal::InfinityEnds(inf));
        }
        return Err(Refusal::InfinityByte(end));
    }
    if closes_infinity(settings, text, end) {
        return Ok(end);
    }
    Err(Refusal::InfinityGoesOn(end))
}

// The place after `inf` or `infinity`.
pub fn parse_infinity_remainder(
    settings: &[u64; 25],
    text: &[u8],
    inf: usize,
) -> Result<usize, Refusal>
    requires settings_value { settings_check (settings_of settings.now) ≡ got tt }
    requires inf_in_bounds { inf + 3 ≤ length text.now }
    ensures { result ≡ infinity_word (settings_of settings.now) text.now inf }
{
    let end = inf + INF;
    if closes_infinity(settings, text, end) {
        return Ok(end);
    }
    parse_inity(settings, text, inf)
}
