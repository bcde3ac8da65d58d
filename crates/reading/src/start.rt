// How a part starts: its sign, and the class of the byte after it, which decides how the part goes on.
ghost use Rattle.std.specs.Prelude.{◌≡◌};
ghost use Rattle.rules.specs.NumbersHandedBack.{got};
ghost use Rattle.rules.specs.SettingsAsWords.{settings_of};
ghost use Rattle.rules.specs.SettingsAndUnitTable.{settings_check};
ghost use Rattle.reading.specs.Typed.{class_at, signed_start, part_start};

use crate::ready::ReadyCard;
use rules::Refusal;
use steps::bytes::is_digit;
use steps::sign::parse_number_sign;
use tables::{DIGIT, OTHER, SIGN, class_of};

// The typed sign, and the class of the byte at the next place.
#[derive(Clone, Copy)]
pub struct Start {
    pub negative: bool,
    pub class: u8,
    pub next: usize,
}

// A digit starts nearly every part, and is told first.
fn class_at(text: &[u8], place: usize) -> u8
    ensures { result ≡ class_at text.now place }
{
    if text.len() <= place {
        return OTHER;
    }
    let byte = text[place];
    if is_digit(byte) {
        return DIGIT;
    }
    class_of(byte)
}

fn signed_start(settings: &[u64; 25], text: &[u8], place: usize) -> Result<Start, Refusal>
    requires { settings_check (settings_of settings.now) ≡ got tt }
    ensures { result ≡ signed_start (settings_of settings.now) text.now place }
{
    let signed = parse_number_sign(settings, text, place)?;
    Ok(Start {
        negative: signed.negative,
        class: class_at(text, signed.next),
        next: signed.next,
    })
}

pub fn part_start(settings: &[u64; 25], text: &[u8], place: usize) -> Result<Start, Refusal>
    requires { settings_check (settings_of settings.now) ≡ got tt }
    ensures { result ≡ part_start (settings_of settings.now) text.now place }
{
    if text.len() <= place {
        return Err(Refusal::Nothing(place));
    }
    let class = class_at(text, place);
    match class {
        SIGN => signed_start(settings, text, place),
        _ => Ok(Start {
            negative: false,
            class,
            next: place,
        }),
    }
}

// The same under a card that is ready. Most parts start with no sign, and only where one does are the settings looked for: lent on before that is known they
// take a register all through a part, and a reading takes some 3 % more. So it doesn't hand on to the one above.
pub fn ready_start(card: &ReadyCard, text: &[u8], place: usize) -> Result<Start, Refusal>
    ensures { result ≡ part_start (settings_of card.now.settings.now) text.now place }
{
    if text.len() <= place {
        return Err(Refusal::Nothing(place));
    }
    let class = class_at(text, place);
    match class {
        SIGN => signed_start(card.settings, text, place),
        _ => Ok(Start {
            negative: false,
            class,
            next: place,
        }),
    }
}
