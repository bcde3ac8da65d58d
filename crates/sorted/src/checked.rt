// The checks of one table with its index, and of a card with its indexes: all of 7, then 23.
ghost use Rattle.std.specs.Prelude.{◌≡◌};
ghost use Rattle.rules.specs.SettingsAsWords.{settings_of};
ghost use Rattle.index.specs.TheSortedIndex.{checking, indexed_of, indexed_check};

use crate::rising::told_right;
use crate::true_order::index_found;
use card::table::card_check;
use rules::Refusal;

// One table with its index. Most are right, and told so in one pass once the settings are accepted; where anything is wrong, the whole of 7 decides,
// and then the index. The settings, and the table with them, are checked as a card without the rest, so that a card's check is one piece of code.
pub fn table_and_index_check(
    settings: &[u64; 25],
    table: &[u8],
    index: &[u8],
) -> Result<(), Refusal>
    ensures { result ≡ checking (settings_of settings.now) table.now index.now }
{
    let none = &table[..0];
    card_check(settings, none, none, none)?;
    if told_right(settings, table, index) {
        return Ok(());
    }
    card_check(settings, table, none, none)?;
    index_found(table, index).map_err(Refusal::WrongIndex)
}

// A card and its indexes, one after another. They are lent one by one, as the entries of index_entries have them: before this check nothing is known of them
// that a struct could keep.
fn checked_apart(
    settings: &[u64; 25],
    hall: &[u8],
    hall_index: &[u8],
    line: &[u8],
    line_index: &[u8],
    numerals: &[u8],
) -> Result<(), Refusal>
    ensures { result ≡ indexed_check (indexed_of settings.now hall.now hall_index.now line.now line_index.now numerals.now) }
{
    card_check(settings, hall, line, numerals)?;
    index_found(hall, hall_index).map_err(Refusal::WrongIndex)?;
    index_found(line, line_index).map_err(Refusal::WrongLineIndex)
}

// The same, with both tables told right in one pass each where they are: then settings and numerals are all that is left of the card.
pub fn indexed_check(
    settings: &[u64; 25],
    hall: &[u8],
    hall_index: &[u8],
    line: &[u8],
    line_index: &[u8],
    numerals: &[u8],
) -> Result<(), Refusal>
    ensures { result ≡ indexed_check (indexed_of settings.now hall.now hall_index.now line.now line_index.now numerals.now) }
{
    let none = &hall[..0];
    if card_check(settings, none, none, numerals).is_ok()
        && told_right(settings, hall, hall_index)
        && told_right(settings, line, line_index)
    {
        return Ok(());
    }
    checked_apart(settings, hall, hall_index, line, line_index, numerals)
}
