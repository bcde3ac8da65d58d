// What was typed of a part, up to the connection to the next.
ghost use Rattle.std.specs.Prelude.{◌≡◌, ◌+◌, ◌≤◌, length};
ghost use Rattle.rules.specs.SettingsAsWords.{settings_of};
ghost use Rattle.rows.specs.Powers.{Fitting};
ghost use Rattle.steps.specs.Units.{negated_if};
ghost use Rattle.reading.specs.Meant.{meant};
ghost use Rattle.reading.specs.Typed.{class_at, typed_infinite, typed_unsigned};
ghost use Rattle.reading.specs.Coded.{Numbered, codes, typed_count, spoken_count, finite_repr, unitless, with_unit, coded_part};

use crate::ready::ReadyCard;
use crate::start::Start;
use rows::fields::{product, row_at, row_multiplier};
use rules::{DurationRepr, Exponent, Multiplier, Refusal, Span, SpokenRepr};
use settings::fields::{before_unit, default_kind, infinity};
use spoken::spoken_product;
use steps::delimiters::parse_number_delimiter;
use steps::exponent::parse_number_exponent;
use steps::infinity::parse_infinity_remainder;
use steps::letters::next_is_ignore_ascii_case;
use steps::number::parse_number;
use steps::numeral::parse_numeral;
use steps::unit::{Ago, UnitRow, parse_ago, parse_time_unit, unit_stretch};
use tables::{DIGIT, LETTER, POINT, kind_multiplier};

// What a part counts, before its unit: digits, with their sum and exponent; or a numeral, by its row, which counts 1 and has no digits. And
// where the unit's name begins. The numeral stands last, and as a number alone: otherwise it takes registers from the loop over the digits.
#[derive(Clone, Copy)]
pub struct Counted {
    pub whole: Span,
    pub fract: Span,
    pub number: u64,
    pub exponent: Exponent,
    pub next: usize,
    pub numeral: Option<usize>,
}

// A part as it is evaluated: what was typed, with the sum of its digits; or 1 times the product of a spoken number, or that this is out of range,
// which is told only when the part has been read to its end.
#[derive(Clone, Copy)]
pub struct SummedPart {
    pub repr: Result<DurationRepr, Refusal>,
    pub number: u64,
    pub next: usize,
}

// `inf` or `infinity`.
fn infinite_part(
    card: &ReadyCard,
    text: &[u8],
    negative: bool,
    place: usize,
) -> Result<SummedPart, Refusal>
    requires { place + 3 ≤ length text.now }
    ensures { result ≡ codes text.now (typed_infinite (settings_of card.now.settings.now) text.now negative place) }
{
    let next = parse_infinity_remainder(card.settings, text, place)?;
    Ok(SummedPart {
        repr: Ok(DurationRepr {
            negative,
            infinite: true,
            whole: Span {
                start: place,
                end: place,
            },
            fract: Span {
                start: place,
                end: place,
            },
            exponent: Exponent {
                negative: false,
                power: 0,
            },
            multiplier: kind_multiplier(default_kind(card.settings)),
        }),
        number: 0,
        next,
    })
}

// Steps 2 to 5, one after another: the first refusal stands.
fn typed_count(card: &ReadyCard, text: &[u8], place: usize) -> Result<Counted, Refusal>
    ensures { result ≡ typed_count (settings_of card.now.settings.now) text.now place }
{
    let summed = parse_number(card.settings, text, place)?;
    let scaled = parse_number_exponent(card.settings, text, summed.typed.next)?;
    let name = parse_number_delimiter(
        before_unit(card.settings),
        card.settings,
        text,
        scaled.next,
    )?;
    Ok(Counted {
        whole: summed.typed.whole,
        fract: summed.typed.fract,
        number: summed.number,
        exponent: scaled.exponent,
        next: name,
        numeral: None,
    })
}

// A numeral and its delimiters.
fn spoken_count(card: &ReadyCard, text: &[u8], place: usize) -> Result<Counted, Refusal>
    ensures { result ≡ spoken_count (settings_of card.now.settings.now) card.now.numerals.now text.now place }
{
    let found = parse_numeral(card.settings, card.numerals, text, place)?;
    Ok(Counted {
        whole: Span { start: 0, end: 0 },
        fract: Span { start: 0, end: 0 },
        number: 1,
        exponent: Exponent {
            negative: false,
            power: 0,
        },
        next: found.next,
        numeral: Some(found.row),
    })
}

// What a part counts, times a multiplier.
fn finite_repr(negative: bool, counted: Counted, multiplier: Multiplier) -> DurationRepr
    ensures { result ≡ finite_repr negative counted multiplier }
{
    DurationRepr {
        negative,
        infinite: false,
        whole: counted.whole,
        fract: counted.fract,
        exponent: counted.exponent,
        multiplier,
    }
}

// `ago` negates what a unit multiplies by.
fn negated(negate: bool, m: Multiplier) -> Multiplier
    ensures { result ≡ negated_if negate m }
{
    Multiplier {
        negative: m.negative != negate,
        ..m
    }
}

// A typed number goes on without a unit, from the place where its name would begin; a spoken one must have a unit.
fn unitless_part(card: &ReadyCard, negative: bool, counted: Counted) -> Result<SummedPart, Refusal>
    ensures { result ≡ unitless (settings_of card.now.settings.now) negative counted counted.numeral }
{
    match counted.numeral {
        Some(_) => Err(Refusal::NoUnit(counted.next)),
        None => {
            let multiplier = kind_multiplier(default_kind(card.settings));
            Ok(SummedPart {
                repr: Ok(finite_repr(negative, counted, multiplier)),
                number: counted.number,
                next: counted.next,
            })
        }
    }
}

// What the number is multiplied by: kind and row, or numeral, kind and row.
fn with_unit(
    card: &ReadyCard,
    negative: bool,
    counted: Counted,
    unit: UnitRow,
    ago: Ago,
) -> Result<DurationRepr, Refusal>
    requires { Numbered card.now.numerals.now counted.numeral × Fitting unit.kind unit.own }
    ensures { result ≡ with_unit card.now.numerals.now negative counted counted.numeral unit ago }
{
    match counted.numeral {
        None => {
            let multiplier = negated(ago.negated, product(unit.kind, unit.own));
            Ok(finite_repr(negative, counted, multiplier))
        }
        Some(i) => {
            let spoken = spoken_product(SpokenRepr {
                negative,
                numeral: row_multiplier(row_at(card.numerals, i)),
                kind: kind_multiplier(unit.kind),
                row: negated(ago.negated, unit.own),
            })?;
            Ok(finite_repr(negative, counted, spoken))
        }
    }
}

// Step 6, for a typed number and a spoken one: one call of the step, so that what is read of most parts is one piece of code. When the lookup
// fails, the place goes back, and the part has no unit.
fn unit_part(
    card: &ReadyCard,
    text: &[u8],
    negative: bool,
    counted: Counted,
) -> Result<SummedPart, Refusal>
    requires { Numbered card.now.numerals.now counted.numeral }
    ensures { result ≡ coded_part (meant card.now) text.now negative counted }
{
    let stretch = unit_stretch(card.stops, text, counted.next);
    let Some(unit) = parse_time_unit(&card.units, text, counted.next, stretch) else {
        return unitless_part(card, negative, counted);
    };
    let ago = parse_ago(card.settings, text, stretch.end)?;
    Ok(SummedPart {
        repr: with_unit(card, negative, counted, unit, ago),
        number: counted.number,
        next: ago.next,
    })
}

// The class of the byte at the place decides: digits, a point, infinity, a numeral, or no number.
pub fn unsigned_part(card: &ReadyCard, text: &[u8], start: Start) -> Result<SummedPart, Refusal>
    requires { start.class ≡ class_at text.now start.next }
    ensures { result ≡ codes text.now (typed_unsigned (meant card.now) text.now start.negative start.next) }
{
    let class = start.class;
    let place = start.next;
    let counted = match class {
        DIGIT | POINT => typed_count(card, text, place)?,
        LETTER => {
            if infinity(card.settings) && next_is_ignore_ascii_case(b"inf", text, place) {
                return infinite_part(card, text, start.negative, place);
            }
            spoken_count(card, text, place)?
        }
        _ => return Err(Refusal::NoNumber(place)),
    };
    unit_part(card, text, start.negative, counted)
}
