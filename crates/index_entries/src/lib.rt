// The readers and the shift total with an index beside each unit table. Each promises its answer for all arguments and asks nothing. They check the
// card with its indexes and hand on to the crates that do the work, which are inner.
#![tactic(auto)]

ghost use Rattle.std.specs.Prelude.{◌≡◌};
ghost use Rattle.index.specs.TheSortedIndex.{indexed_of, indexed_part_answer, indexed_total_answer, indexed_shift_answer, indexed_shifted_record};

use answers::refusal;
use reading::checked::{read_part_checked, read_total_checked};
use reading::ready::AcceptedCard;
use reading::shift::{kept, shifted_total_checked};
use rules::{Answer, Length, ShiftedTotal};
use sorted::checked::indexed_check;

// The card has a name of its own in each function, so that a must-fail edit can say which of them it turns.

// One part of a text, from a place on.
pub fn read_part_indexed<'a>(
    settings: &[u64; 25],
    hall: &'a [u8],
    hall_index: &[u8],
    line: &'a [u8],
    line_index: &[u8],
    numerals: &[u8],
    text: &[u8],
    place: usize,
) -> Answer
    ensures { result ≡ indexed_part_answer (indexed_of settings.now hall.now hall_index.now line.now line_index.now numerals.now) text.now place }
{
    match indexed_check(settings, hall, hall_index, line, line_index, numerals) {
        Err(cause) => refusal(cause),
        Ok(()) => {
            let card = AcceptedCard::with_indexes(
                settings, hall, hall_index, line, line_index, numerals,
            );
            read_part_checked(&card, text, place)
        }
    }
}

// A text's total.
pub fn read_total_indexed<'a>(
    settings: &[u64; 25],
    hall: &'a [u8],
    hall_index: &[u8],
    line: &'a [u8],
    line_index: &[u8],
    numerals: &[u8],
    text: &[u8],
) -> Answer
    ensures { result ≡ indexed_total_answer (indexed_of settings.now hall.now hall_index.now line.now line_index.now numerals.now) text.now }
{
    match indexed_check(settings, hall, hall_index, line, line_index, numerals) {
        Err(cause) => refusal(cause),
        Ok(()) => {
            let accepted = AcceptedCard::with_indexes(
                settings, hall, hall_index, line, line_index, numerals,
            );
            read_total_checked(&accepted, text)
        }
    }
}

// The shift total by value: what is handed back, and what a lent record has to hold afterwards.
pub fn shifted_total_indexed<'a>(
    total: Length,
    settings: &[u64; 25],
    hall: &'a [u8],
    hall_index: &[u8],
    line: &'a [u8],
    line_index: &[u8],
    numerals: &[u8],
    text: &[u8],
) -> ShiftedTotal
    ensures { (result.answer ≡ indexed_shift_answer total (indexed_of settings.now hall.now hall_index.now line.now line_index.now numerals.now) text.now) × (result.total ≡ indexed_shifted_record total (indexed_of settings.now hall.now hall_index.now line.now line_index.now numerals.now) text.now) }
{
    match indexed_check(settings, hall, hall_index, line, line_index, numerals) {
        Err(cause) => kept(total, cause),
        Ok(()) => {
            let checked = AcceptedCard::with_indexes(
                settings, hall, hall_index, line, line_index, numerals,
            );
            shifted_total_checked(total, &checked, text)
        }
    }
}
