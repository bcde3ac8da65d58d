// Step 4: the exponent.
ghost use Rattle.std.specs.Prelude.{◌≡◌, drop};
ghost use Rattle.rules.specs.NumbersHandedBack.{got};
ghost use Rattle.rules.specs.SettingsAsWords.{settings_of};
ghost use Rattle.rules.specs.Common.{sees};
ghost use Rattle.rules.specs.ReadingOnePart.{same_letter, exponent_limit, exponent_passed, exponent_digits, exponent_number, exponent_step};

use crate::bytes::{is_digit, same_letter};
use crate::sign::sign_at;
use rules::{Exponent, Refusal, Scaled};
use settings::fields::exponents;

fn exponent_limit(negative: bool) -> u32
    ensures { result ≡ exponent_limit negative }
{
    if negative { 32_768 } else { 32_767 }
}

fn exponent_passed(negative: bool, place: usize) -> Refusal
    ensures { result ≡ exponent_passed negative place }
{
    if negative {
        Refusal::ExponentBelow(place)
    } else {
        Refusal::ExponentAbove(place)
    }
}

fn exponent_at(negative: bool, power: u16, next: usize) -> Result<Scaled, Refusal>
    ensures { result ≡ got (record { exponent = record { negative = negative; power = power }; next = next }) }
{
    Ok(Scaled {
        exponent: Exponent { negative, power },
        next,
    })
}

// The first digit at which the power passes its limit decides, so the power stays small. A loop by index, for its speed (see the crate's head).
fn exponent_digits(text: &[u8], negative: bool, place: usize) -> Result<Scaled, Refusal>
    ensures { result ≡ exponent_digits negative (drop place text.now) 0 place }
{
    let limit = exponent_limit(negative);
    let mut power: u32 = 0;
    let mut next = place;
    while next < text.len() {
        let byte = text[next];
        if !is_digit(byte) {
            return exponent_at(negative, power as u16, next);
        }
        let more = power * 10 + (byte - b'0') as u32;
        if limit < more {
            return Err(exponent_passed(negative, next));
        }
        power = more;
        next += 1;
    }
    exponent_at(negative, power as u16, next)
}

fn parse_exponent(text: &[u8], negative: bool, place: usize) -> Result<Scaled, Refusal>
    ensures { result ≡ exponent_number text.now negative place }
{
    if text.len() <= place {
        return Err(Refusal::ExponentEnds(place));
    }
    if !is_digit(text[place]) {
        return Err(Refusal::ExponentByte(place));
    }
    exponent_digits(text, negative, place)
}

fn is_exponent(text: &[u8], place: usize) -> bool
    ensures { result ≡ sees (same_letter 101) text.now place }
{
    if text.len() <= place {
        return false;
    }
    same_letter(b'e', text[place])
}

pub fn parse_number_exponent(
    settings: &[u64; 25],
    text: &[u8],
    place: usize,
) -> Result<Scaled, Refusal>
    ensures { result ≡ exponent_step (settings_of settings.now) text.now place }
{
    if !is_exponent(text, place) {
        return exponent_at(false, 0, place);
    }
    if !exponents(settings) {
        return Err(Refusal::ExponentOff(place));
    }
    let sign = sign_at(text, place + 1);
    parse_exponent(text, sign.negative, sign.next)
}
