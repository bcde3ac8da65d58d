// The fields of a row, and its product with its kind.
ghost use Rattle.std.specs.Prelude.{◌≡◌, true, ◌&&◌, ◌+◌, ◌*◌, ◌^◌, ◌<◌, ltb, length};
ghost use Rattle.rules.specs.SettingsAndUnitTable.{coefficient_size, row_size, rows, row, name, magnitude, kind_multiplier, row_multiplier, times, product, in_range};
ghost use Rattle.rows.specs.Powers.{risen, fallen, Fitting};

use rules::Multiplier;
use tables::kind_multiplier;
use words::{short_at, word_at};

// How many bytes a row has, and where its fields stand: size, name, kind, coefficient, power, zeros.
pub const ROW_SIZE: usize = 48;

pub const NAME_AT: usize = 1;

// How many bytes the name's room has, and where its words behind the first stand.
pub const NAME_ROOM: u8 = 32;

pub const SECOND_WORD_AT: usize = 9;

pub const THIRD_WORD_AT: usize = 17;

pub const LAST_WORD_AT: usize = 25;

pub const KIND_AT: usize = 33;

const COEFFICIENT_AT: usize = 34;

const POWER_AT: usize = 42;

pub const ZEROS_AT: usize = 44;

// Below these no kind, of which the largest coefficient is 604800 and the lowest power -9, takes a row out of the range.
const SMALL_COEFFICIENT: u64 = 8_796_093_022_208;

const SMALL_DOWN: u16 = 32_760;

// The row with this number: a part of the lent table.
pub fn row_at(table: &[u8], i: usize) -> &[u8]
    requires { i < rows table.now }
    ensures { result.now ≡ row table.now i }
{
    let start = ROW_SIZE * i;
    let end = start + ROW_SIZE;
    &table[start..end]
}

// The name of a row. A row that is not accepted may claim more bytes than it has.
pub fn name_of(row: &[u8]) -> &[u8]
    requires { length row.now ≡ row_size }
    ensures { result.now ≡ name row.now }
{
    let size = row[0] as usize;
    if size < 47 {
        let end = NAME_AT + size;
        return &row[NAME_AT..end];
    }
    &row[NAME_AT..]
}

// The magnitude of a coefficient in two's complement.
fn coefficient_magnitude(x: u64) -> u64
    ensures { result ≡ magnitude coefficient_size x }
{
    x.cast_signed().unsigned_abs()
}

// How far a power in two's complement stands above zero, and how far below.
fn risen_and_fallen(power: u16) -> (u16, u16)
    ensures { (result.0 ≡ risen power) × (result.1 ≡ fallen power) }
{
    if power < 32_768 {
        (power, 0)
    } else {
        (0, power.cast_signed().unsigned_abs())
    }
}

// What the row itself multiplies by.
pub fn row_multiplier(row: &[u8]) -> Multiplier
    requires { length row.now ≡ row_size }
    ensures { result ≡ row_multiplier row.now }
{
    let coefficient = word_at(row, COEFFICIENT_AT);
    let (up, down) = risen_and_fallen(short_at(row, POWER_AT));
    Multiplier {
        negative: coefficient >= 9_223_372_036_854_775_808,
        coefficient: coefficient_magnitude(coefficient),
        up,
        down,
    }
}

// Whether a product is at most 9223372036854775807. It is not made, since it may not fit: the magnitude is held against the limit
// divided by the factor.
pub fn within(factor: u64, magnitude: u64) -> bool
    ensures { result ≡ ltb (factor * magnitude) (2 ^ 63) }
{
    factor == 0 || magnitude <= 9_223_372_036_854_775_807 / factor
}

// Whether no kind takes the row out of the range.
fn small(own: Multiplier) -> bool
    ensures { result ≡ (ltb own.coefficient 8796093022208 && ltb own.down 32760) }
{
    own.coefficient < SMALL_COEFFICIENT && own.down < SMALL_DOWN
}

// Whether a row's fields say so as they stand: a coefficient that is neither large nor below zero, and a power that is not far below zero.
pub fn plainly_small(row: &[u8]) -> bool
    requires { length row.now ≡ row_size }
    ensures { result ≡ true → in_range (product row.now) ≡ true }
{
    if word_at(row, COEFFICIENT_AT) >= SMALL_COEFFICIENT {
        return false;
    }
    let power = short_at(row, POWER_AT);
    power < 32_768 || power > 32_776
}

// Whether kind times row lies in the range. A power above zero is never too high. Most rows are told
// by their fields as they stand, and nearly all without a read of the kinds.
pub fn product_in_range(row: &[u8]) -> bool
    requires { length row.now ≡ row_size }
    ensures { result ≡ in_range (product row.now) }
{
    if plainly_small(row) {
        return true;
    }
    let own = row_multiplier(row);
    if small(own) {
        return true;
    }
    let unit = kind_multiplier(row[KIND_AT]);
    within(unit.coefficient, own.coefficient) && unit.down + own.down <= own.up + 32_768
}

// Kind times row, of a row for which that is in range.
pub fn product(kind: u8, own: Multiplier) -> Multiplier
    requires { Fitting kind own }
    ensures { result ≡ times (kind_multiplier kind) own }
{
    let unit = kind_multiplier(kind);
    Multiplier {
        negative: own.negative,
        coefficient: unit.coefficient * own.coefficient,
        up: own.up,
        down: unit.down + own.down,
    }
}
