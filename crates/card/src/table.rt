// The check of a table of units and of numerals, by its first bad row; and the card's check, settings first.
ghost use Rattle.std.specs.Prelude.{◌≡◌, true, ℕ, ◌<◌, ◌≤◌, List, not};
ghost use Rattle.rules.specs.declared.Refusal.{Refusal};
ghost use Rattle.rules.specs.Common.{same};
ghost use Rattle.rules.specs.NumbersHandedBack.{got};
ghost use Rattle.rules.specs.SettingsAsWords.{settings_of, card_of};
ghost use Rattle.rules.specs.SettingsAndUnitTable.{settings_check, rows, row, name, named, e_may_lead, most_rows, row_accepted, card_check};
ghost use Rattle.rules.specs.Laws.Lists.{Bytes};
ghost use Rattle.settings.specs.Sets.{bytes_of};
ghost use Rattle.rows.specs.Named.{padded};
ghost use Rattle.card.specs.Fields.{Letterless, unnameable, asked_further, Simple, Each, alone, ruled, tested, said, tabled};
ghost use Rattle.card.specs.Laws.Table.{first_bad};

use crate::row::{Further, RowRule, further_right, row_alone, same_name, simple};
use rows::fields::{ROW_SIZE, row_at};
use rules::Refusal;
use settings::check::settings_check;
use settings::fields::{before_unit, exponents};
use settings::sets::{AsciiSet, either, empty, inner_delimiters, outer_delimiters};

pub const MOST_ROWS: usize = 64;

const MOST_NUMERALS: usize = 32;

// `+`, `-`, `.` and the digits, as bits of a set's first word.
const NUMBER_BYTES: u64 = 288_063_250_384_289_792;

// All bytes below 128 but the letters, as bits of a set's two words: the letters stand in the second.
const BELOW_64: u64 = 18_446_744_073_709_551_615;

const NO_LETTERS_FROM_64: u64 = 17_870_283_329_861_844_993;

// The bytes that no name holds, as one set: the delimiters of both sets, `+`, `-`, `.` and the digits.
fn unnameable(settings: &[u64; 25]) -> AsciiSet
    requires { settings_check (settings_of settings.now) ≡ got tt }
    ensures { bytes_of result ≡ unnameable (settings_of settings.now) }
{
    let number = AsciiSet {
        low: NUMBER_BYTES,
        high: 0,
    };
    either(
        either(inner_delimiters(settings), outer_delimiters(settings)),
        number,
    )
}

// Whether two rows of a table have one name.
fn named_alike(table: &[u8], i: usize, j: usize) -> bool
    requires { (i < rows table.now) × (j < rows table.now) × (padded (row table.now i) ≡ true) × (padded (row table.now j) ≡ true) }
    ensures { result ≡ same (name (row table.now i)) (name (row table.now j)) }
{
    same_name(row_at(table, i), row_at(table, j))
}

// Whether an earlier row has this row's name: then this row, the later, is bad.
fn named_before(table: &[u8], i: usize) -> bool
    requires i_bound { i < rows table.now }
    requires by_index { (j : ℕ) → j ≤ i → padded (row table.now j) ≡ true }
    ensures { result ≡ named table.now (name (row table.now i)) i }
{
    (0..i).any(|earlier| named_alike(table, earlier, i))
}

// Whether something can stand between a number and a name led by `e`, so that the `e` begins no exponent: an exponent, or a
// delimiter.
fn e_may_lead(settings: &[u64; 25]) -> bool
    requires { settings_check (settings_of settings.now) ≡ got tt }
    ensures { result ≡ e_may_lead (settings_of settings.now) }
{
    exponents(settings) || before_unit(settings) && !empty(inner_delimiters(settings))
}

// How many rows of a table, from the first on, are as nearly all are.
fn simple_rows(table: &[u8]) -> usize
    ensures { (result ≤ rows table.now) × Each Simple table.now result }
{
    let count = table.len() / ROW_SIZE;
    for i in 0..count {
        if !simple(row_at(table, i)) {
            return i;
        }
    }
    count
}

// How many of them, from the first on, have what is asked further: most often that is nothing.
fn further_rows(further: Further, table: &[u8], count: usize) -> usize
    requires { (count ≤ rows table.now) × Each Simple table.now count }
    ensures { (result ≤ count) × Each (λ row. asked_further further row ≡ true) table.now result }
{
    if let Further::Nothing = further {
        return count;
    }
    for i in 0..count {
        if !further_right(further, row_at(table, i)) {
            return i;
        }
    }
    count
}

// How many rows, from the first on, have all that is asked of a row by itself, where so many are known to. It stands apart, so that the registers are left to
// the short test, which nearly all rows pass.
#[inline(never)]
fn rows_alone_from(rule: RowRule, table: &[u8], known: usize) -> usize
    requires letterless { Letterless (bytes_of rule.set) }
    requires known { (known ≤ rows table.now) × Each (λ row. alone rule row ≡ true) table.now known }
    ensures { result ≡ first_bad (λ i. alone rule (row table.now i)) 0 (rows table.now) }
{
    let count = table.len() / ROW_SIZE;
    for i in known..count {
        if !row_alone(rule, row_at(table, i)) {
            return i;
        }
    }
    count
}

// The same. The short test goes first, and is asked of no row behind one that fails it: from there on document 01's whole test decides. Asked of each row, with
// the whole test behind it, it takes up to half as many instructions more where names are long or not ASCII, and what is asked further in the same pass some
// more for all. Loops, since a chain of the library's takes more too.
fn rows_alone(rule: RowRule, table: &[u8]) -> usize
    requires { Letterless (bytes_of rule.set) }
    ensures { result ≡ first_bad (λ i. alone rule (row table.now i)) 0 (rows table.now) }
{
    let soon = further_rows(rule.further, table, simple_rows(table));
    if soon == table.len() / ROW_SIZE {
        return soon;
    }
    rows_alone_from(rule, table, soon)
}

// How many of them, from the first on, have a name that none before has. The first has one.
fn rows_apart(table: &[u8], count: usize) -> usize
    requires { (count ≤ rows table.now) × Each (λ row. padded row ≡ true) table.now count }
    ensures { result ≡ first_bad (λ i. not (named table.now (name (row table.now i)) i)) 0 count }
{
    for i in 1..count {
        if named_before(table, i) {
            return i;
        }
    }
    count
}

// The first row that is not accepted, or how many rows there are. The names are asked last, of the rows that are right by themselves: that takes fewer
// instructions than all of it row by row. Whoever knows otherwise that all names are different leaves them out. That is a flag, and no closure: it is tested once, and a row's tests are one piece of
// code for both.
fn first_bad(rule: RowRule, against: bool, table: &[u8]) -> usize
    requires { Letterless (bytes_of rule.set) }
    ensures { result ≡ first_bad (tested rule against table.now) 0 (rows table.now) }
{
    let alone = rows_alone(rule, table);
    if against {
        rows_apart(table, alone)
    } else {
        alone
    }
}

// What is wrong with a table: a size that is no number of rows or too many of them, or its first bad row.
#[derive(Clone, Copy)]
pub enum TableFault {
    WrongSize,
    BadRow(u8),
}

// At most so many rows, all of them whole, and each by the rule, held against the names before it or not. A byte counts the rows.
pub fn rows_found(most: usize, rule: RowRule, against: bool, table: &[u8]) -> Result<(), TableFault>
    requires { (most ≤ most_rows) × Letterless (bytes_of rule.set) }
    ensures { (size : Refusal) (bad : ℕ → Refusal) → said size bad result ≡ tabled size most (tested rule against table.now) bad table.now }
{
    if table.len() % ROW_SIZE != 0 {
        return Err(TableFault::WrongSize);
    }
    let count = table.len() / ROW_SIZE;
    if count > most {
        return Err(TableFault::WrongSize);
    }
    let bad = first_bad(rule, against, table);
    if bad < count {
        return Err(TableFault::BadRow(bad as u8));
    }
    Ok(())
}

// What is asked of a row of units.
pub fn unit_rule(settings: &[u64; 25]) -> RowRule
    requires { settings_check (settings_of settings.now) ≡ got tt }
    ensures letterless { Letterless (bytes_of result.set) }
    ensures by_index { (table : List ℕ) → Bytes table → (i : ℕ) → ruled result table i ≡ row_accepted (settings_of settings.now) table i }
{
    RowRule {
        set: unnameable(settings),
        further: if e_may_lead(settings) {
            Further::Nothing
        } else {
            Further::NotLedByE
        },
    }
}

// What is asked of a numeral.
const NUMERAL_RULE: RowRule = RowRule {
    set: AsciiSet {
        low: BELOW_64,
        high: NO_LETTERS_FROM_64,
    },
    further: Further::AsciiSeconds,
};

// A table by its rule, and what is said of one that is not accepted. One without rows is accepted at once: most cards have no line and no numerals.
fn table_checked<B: FnOnce(u8) -> Refusal>(
    most: usize,
    rule: RowRule,
    table: &[u8],
    size: Refusal,
    bad: B,
) -> Result<(), Refusal>
    requires fits { (most ≤ most_rows) × Letterless (bytes_of rule.set) }
    requires callable { B.IsAlwaysCallable bad }
    ensures { (named : ℕ → Refusal) → ((i : ℕ) (r : Refusal) → i < 256 → B.post bad i r → r ≡ named i) → result ≡ tabled size most (ruled rule table.now) named table.now }
{
    if table.is_empty() {
        return Ok(());
    }
    match rows_found(most, rule, true, table) {
        Ok(()) => Ok(()),
        Err(TableFault::WrongSize) => Err(size),
        Err(TableFault::BadRow(row)) => Err(bad(row)),
    }
}

// Settings first, then the hall's table, then the line's, then the numerals.
pub fn card_check(
    settings: &[u64; 25],
    hall: &[u8],
    line: &[u8],
    numerals: &[u8],
) -> Result<(), Refusal>
    ensures { result ≡ card_check (card_of settings.now hall.now line.now numerals.now) }
{
    settings_check(settings)?;
    let rule = unit_rule(settings);
    table_checked(
        MOST_ROWS,
        rule,
        hall,
        Refusal::TableSize,
        |row| Refusal::BadRow(row as usize),
    )?;
    table_checked(
        MOST_ROWS,
        rule,
        line,
        Refusal::LineSize,
        Refusal::BadLineRow,
    )?;
    table_checked(
        MOST_NUMERALS,
        NUMERAL_RULE,
        numerals,
        Refusal::NumeralsSize,
        Refusal::BadNumeral,
    )
}
