// The settings check: delimiters, conjunctions, default kind.
ghost use Rattle.std.specs.Prelude.{◌≡◌};
ghost use Rattle.rules.specs.SettingsAndUnitTable.{delimiters_accepted, conjunction_accepted, conjunctions_accepted, settings_check};
ghost use Rattle.rules.specs.SettingsAsWords.{settings_of};

use crate::fields::{conjunction_at, conjunctions, default_kind, inner, outer};
use crate::sets::delimits;
use rules::{Conjunction, Refusal};

fn delimiters_accepted(settings: &[u64; 25]) -> bool
    ensures { result ≡ delimiters_accepted (settings_of settings.now) }
{
    delimits(inner(settings)) && delimits(outer(settings))
}

// 1 to 8 letters. What stands in the bytes above them counts for nothing.
fn conjunction_accepted(c: Conjunction) -> bool
    ensures { result ≡ conjunction_accepted c }
{
    let size = c.size;
    if size < 1 || size > 8 {
        return false;
    }
    c.letters.to_le_bytes()[..size as usize]
        .iter()
        .all(|letter| letter.is_ascii_alphabetic())
}

fn conjunctions_accepted(settings: &[u64; 25]) -> bool
    ensures { result ≡ conjunctions_accepted (settings_of settings.now) }
{
    let count = conjunctions(settings);
    count <= 4 && (0..count).all(|i| conjunction_accepted(conjunction_at(settings, i)))
}

pub fn settings_check(settings: &[u64; 25]) -> Result<(), Refusal>
    ensures { result ≡ settings_check (settings_of settings.now) }
{
    if !delimiters_accepted(settings) {
        return Err(Refusal::Delimiters);
    }
    if !conjunctions_accepted(settings) {
        return Err(Refusal::Conjunctions);
    }
    if default_kind(settings) > 7 {
        return Err(Refusal::DefaultKind);
    }
    Ok(())
}
