// What components are worth: whole seconds so far, if a word holds them, and the nanoseconds behind a mark.
ghost use Rattle.std.specs.Prelude.{◌≡◌, true, ℕ, ◌+◌, ◌*◌, ◌^◌, ◌≤◌, ◌<◌};
ghost use Rattle.rules.specs.Common.{all};
ghost use Rattle.rules.specs.SettingsAndUnitTable.{DIGIT, is};
ghost use Rattle.value.specs.Numbers.{as_word};
ghost use Rattle.iso.specs.IsoTimings.{closes, seconds_of};
ghost use Rattle.iso.specs.Laws.Worth.{whole_worth, fraction_worth};
ghost use Rattle.iso_reader.specs.Kinds.{kind_number};
ghost use Rattle.iso_reader.specs.Steps.{component_of};
ghost use Rattle.iso_reader.specs.Due.{due};
ghost use Rattle.iso_reader.specs.Tenths.{tenths};

use crate::counted::{Counted, Kind};
use rules::{Length, Refusal};
use value::digits::append;

const NANOSECONDS_PER_SECOND: u64 = 1_000_000_000;

// A byte as a number, of which the byte `0` is taken.
const ZERO: u64 = b'0' as u64;

#[tactic(auto, unfolding(iso::specs::IsoTimings::seconds_of, rules::specs::SettingsAndUnitTable::kind_coefficients))]
fn seconds_of(kind: Kind) -> u64
    ensures value { result ≡ seconds_of (kind_number kind) }
    ensures bounds { (0 < result) × (result ≤ 604800) }
{
    match kind {
        Kind::Seconds => 1,
        Kind::Minutes => 60,
        Kind::Hours => 3_600,
        Kind::Days => 86_400,
        Kind::Weeks => 604_800,
    }
}

// Nothing follows weeks, seconds, or a number with a fraction.
pub fn closes(counted: &Counted<'_>) -> bool
    ensures { result ≡ closes (component_of counted.now) }
{
    match counted.kind {
        Kind::Weeks | Kind::Seconds => true,
        Kind::Days | Kind::Hours | Kind::Minutes => !counted.typed.fraction.is_empty(),
    }
}

// A number of units more. What a word does not hold is too large, whatever comes. That it fits is seen by one division before it is multiplied: the
// library's checked product asks for the half that is not kept too, and a board's multiplier may have 32 bits.
fn add(total: Option<u64>, number: Option<u64>, unit: u64) -> Option<u64>
    requires { 0 < unit }
    ensures { (w n : ℕ) → number ≡ as_word w → due result n ≡ due total (w * unit * 10 ^ 9 + n) }
{
    let seconds = total?;
    let count = number?;
    if count > (u64::MAX - seconds) / unit {
        return None;
    }
    Some(seconds + count * unit)
}

// The seconds so far, and those of a component's digits before the mark.
pub fn with_whole(total: Option<u64>, counted: &Counted<'_>) -> Option<u64>
    ensures { (n : ℕ) → due result n ≡ due total (whole_worth (component_of counted.now) + n) }
{
    let number = append(0, counted.typed.whole);
    add(total, number, seconds_of(counted.kind))
}

// What digits behind a mark are worth, of a unit of so many nanoseconds, rounded down once: from the last digit to the first, a tenth
// of the digit and of what stands behind it. Rounded down at each tenth it comes to the same as rounded down once, at the end.
fn fraction_nanoseconds(decimals: &[u8], unit: u64) -> u64
    requires unit_nonzero { (0 < unit) × (unit ≤ 604800 * 10 ^ 9) }
    requires digits { all (is DIGIT) decimals.now ≡ true }
    ensures { result ≡ tenths unit decimals.now }
{
    let mut behind = 0;
    for digit in decimals.iter().rev() {
        behind = ((*digit as u64 - ZERO) * unit + behind) / 10;
    }
    behind
}

// The nanoseconds of a component's digits behind the mark.
pub fn fraction_of(counted: &Counted<'_>) -> u64
    ensures { result ≡ fraction_worth (component_of counted.now) }
{
    let [_, decimals @ ..] = counted.typed.fraction else {
        return 0;
    };
    fraction_nanoseconds(decimals, seconds_of(counted.kind) * NANOSECONDS_PER_SECOND)
}

// Seconds so far and nanoseconds, unless they are beyond the largest length.
pub fn length_of(total: Option<u64>, nanoseconds: u64) -> Result<Length, Refusal>
    ensures { result ≡ due total nanoseconds }
{
    let whole = total.ok_or(Refusal::TooLarge)?;
    let seconds = whole
        .checked_add(nanoseconds / NANOSECONDS_PER_SECOND)
        .ok_or(Refusal::TooLarge)?;
    Ok(Length {
        negative: false,
        seconds,
        nanoseconds: (nanoseconds % NANOSECONDS_PER_SECOND) as u32,
    })
}
