// What stands before an index is made and before a row is replaced: which refusal comes first.
ghost use Rattle.std.specs.Prelude.{◌≡◌};
ghost use Rattle.rules.specs.SettingsAsWords.{settings_of};
ghost use Rattle.index.specs.TheSortedIndex.{making, replacing};

use crate::checked::table_and_index_check;
use crate::replaced::row_fits;
use card::table::card_check;
use rows::fields::ROW_SIZE;
use rules::Refusal;

// The settings, the table, and a lent index of its length. The table is held against itself: no index says yet that its names are different.
pub fn may_make(settings: &[u64; 25], table: &[u8], index: &[u8]) -> Result<(), Refusal>
    ensures { result ≡ making (settings_of settings.now) table.now index.now }
{
    let none = &table[..0];
    card_check(settings, table, none, none)?;
    let count = table.len() / ROW_SIZE;
    if index.len() != count {
        return Err(Refusal::WrongIndex(count as u8));
    }
    Ok(())
}

// The table and its index, then the row's number, then the new row.
pub fn may_replace(
    settings: &[u64; 25],
    table: &[u8],
    index: &[u8],
    row: usize,
    new: &[u8],
) -> Result<(), Refusal>
    ensures { result ≡ replacing (settings_of settings.now) table.now index.now row new.now }
{
    table_and_index_check(settings, table, index)?;
    if row >= table.len() / ROW_SIZE {
        return Err(Refusal::Beyond(row));
    }
    if !row_fits(settings, table, row, new) {
        return Err(Refusal::BadRow(row));
    }
    Ok(())
}
