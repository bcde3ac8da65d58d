// Step 1: an optional sign.
ghost use Rattle.std.specs.Prelude.{◌≡◌};
ghost use Rattle.rules.specs.NumbersHandedBack.{got};
ghost use Rattle.rules.specs.SettingsAsWords.{settings_of};
ghost use Rattle.rules.specs.SettingsAndUnitTable.{settings_check};
ghost use Rattle.rules.specs.ReadingOnePart.{sign_step};
ghost use Rattle.steps.specs.Signs.{sign_at};

use crate::bytes::is_sign;
use crate::delimiters::parse_number_delimiter;
use rules::{Refusal, Signed};
use settings::fields::after_sign;

// A sign, if there is one, and the place after it. A place with no sign is a plus that takes no byte.
pub fn sign_at(text: &[u8], place: usize) -> Signed
    ensures { result ≡ sign_at text.now place }
{
    if text.len() <= place {
        return Signed {
            negative: false,
            next: place,
        };
    }
    let byte = text[place];
    if is_sign(byte) {
        return Signed {
            negative: byte == b'-',
            next: place + 1,
        };
    }
    Signed {
        negative: false,
        next: place,
    }
}

// The sign, and the delimiters after it.
pub fn parse_number_sign(settings: &[u64; 25], text: &[u8], place: usize) -> Result<Signed, Refusal>
    requires { settings_check (settings_of settings.now) ≡ got tt }
    ensures { result ≡ sign_step (settings_of settings.now) text.now place }
{
    let sign = sign_at(text, place);
    let after = sign.next;
    if after == place {
        return Ok(sign);
    }
    if text.len() <= after {
        return Err(Refusal::SignEnds(after));
    }
    let next = parse_number_delimiter(after_sign(settings), settings, text, after)?;
    Ok(Signed {
        negative: sign.negative,
        next,
    })
}
