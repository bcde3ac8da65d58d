// What is handed back: the number and the position of each refusal, in one place.
#![tactic(auto)]

ghost use Rattle.std.specs.Prelude.{◌≡◌};
ghost use Rattle.rules.specs.NumbersHandedBack.{number, position, refusal, done};

use lengths::duration::zero;
use rules::{Answer, Length, Refusal};

pub fn done(position: usize, length: Length) -> Answer
    ensures { result ≡ done position length }
{
    Answer {
        number: 0,
        position,
        length,
    }
}

// The position of a bad row of the line's table is its row and this, and that of a wrong entry of its index is its entry and this.
const FIRST_LINE_ROW: usize = 128;

// The position of a bad numeral is its row and this, behind those of the hall's table and of the settings.
const FIRST_NUMERAL: usize = 68;

// A number that is handed back, and its position.
#[derive(Clone, Copy)]
struct Numbered(u8, usize);

// A forbidden negative holds a place too, and is handed back with 0.
fn number_and_position(cause: Refusal) -> Numbered
    ensures { (result.0 ≡ number cause) × (result.1 ≡ position cause) }
{
    match cause {
        Refusal::Nothing(place) => Numbered(1, place),
        Refusal::SignEnds(place) => Numbered(17, place),
        Refusal::DelimiterEnds(place) => Numbered(18, place),
        Refusal::FractionOff(place) => Numbered(20, place),
        Refusal::FractionEmpty(place) => Numbered(20, place),
        Refusal::ExponentOff(place) => Numbered(21, place),
        Refusal::ExponentByte(place) => Numbered(21, place),
        Refusal::ExponentEnds(place) => Numbered(17, place),
        Refusal::ExponentAbove(place) => Numbered(3, place),
        Refusal::ExponentBelow(place) => Numbered(4, place),
        Refusal::InfinityByte(place) => Numbered(22, place),
        Refusal::InfinityEnds(place) => Numbered(22, place),
        Refusal::InfinityGoesOn(place) => Numbered(22, place),
        Refusal::ConjunctionEnds(place) => Numbered(19, place),
        Refusal::ConjunctionGoesOn(place) => Numbered(19, place),
        Refusal::NegativeForbidden(_) => Numbered(5, 0),
        Refusal::NoNumber(place) => Numbered(6, place),
        Refusal::NoUnit(place) => Numbered(15, place),
        Refusal::OutOfRange => Numbered(16, 0),
        Refusal::Delimiters => Numbered(7, 65),
        Refusal::Conjunctions => Numbered(7, 66),
        Refusal::DefaultKind => Numbered(7, 67),
        Refusal::TableSize => Numbered(7, 64),
        Refusal::BadRow(row) => Numbered(7, row),
        Refusal::LineSize => Numbered(7, 192),
        Refusal::BadLineRow(row) => Numbered(7, FIRST_LINE_ROW + row as usize),
        Refusal::NumeralsSize => Numbered(7, 100),
        Refusal::BadNumeral(row) => Numbered(7, FIRST_NUMERAL + row as usize),
        Refusal::WrongIndex(entry) => Numbered(23, entry as usize),
        Refusal::WrongLineIndex(entry) => Numbered(23, FIRST_LINE_ROW + entry as usize),
        Refusal::TextTooLong => Numbered(8, 4_096),
        Refusal::NoRoom(place) => Numbered(9, place),
        Refusal::Beyond(place) => Numbered(10, place),
        Refusal::Malformed => Numbered(11, 0),
        Refusal::NotIso(place) => Numbered(12, place),
        Refusal::YearOrMonth(place) => Numbered(13, place),
        Refusal::TooLarge => Numbered(14, 0),
        Refusal::NoStoredRow(line) => Numbered(24, line),
        Refusal::NameTooLong(line) => Numbered(25, line),
    }
}

// A refusal has a plus-signed zero length.
pub fn refusal(cause: Refusal) -> Answer
    ensures { result ≡ refusal cause }
{
    let found = number_and_position(cause);
    Answer {
        number: found.0,
        position: found.1,
        length: zero(),
    }
}
