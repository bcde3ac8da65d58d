// Card A of document 01: its settings, and its unit table as bytes.
#![tactic(auto)]

ghost use Rattle.std.specs.Prelude.{◌≡◌};
ghost use Rattle.rules.specs.CardAAndItsReadings.{settings_A, table_A};

use rules::{ByteSet, Conjunction, Settings};

// Six rows of 48 bytes: size and room of the name, kind, coefficient, power, four zeros.
const TABLE: [u8; 288] = [
    // `ns`
    2, 110, 115, 0, 0, 0, 0, 0, 0, 0, 0, 0, 0, 0, 0, 0, 0, 0, 0, 0, 0, 0, 0, 0, 0, 0, 0, 0, 0, 0,
    0, 0, 0, 0, 1, 0, 0, 0, 0, 0, 0, 0, 0, 0, 0, 0, 0, 0,
    // `ms`
    2, 109, 115, 0, 0, 0, 0, 0, 0, 0, 0, 0, 0, 0, 0, 0, 0, 0, 0, 0, 0, 0, 0, 0, 0, 0, 0, 0, 0, 0,
    0, 0, 0, 2, 1, 0, 0, 0, 0, 0, 0, 0, 0, 0, 0, 0, 0, 0,
    // `s`
    1, 115, 0, 0, 0, 0, 0, 0, 0, 0, 0, 0, 0, 0, 0, 0, 0, 0, 0, 0, 0, 0, 0, 0, 0, 0, 0, 0, 0, 0, 0,
    0, 0, 3, 1, 0, 0, 0, 0, 0, 0, 0, 0, 0, 0, 0, 0, 0,
    // `min`
    3, 109, 105, 110, 0, 0, 0, 0, 0, 0, 0, 0, 0, 0, 0, 0, 0, 0, 0, 0, 0, 0, 0, 0, 0, 0, 0, 0, 0, 0,
    0, 0, 0, 4, 1, 0, 0, 0, 0, 0, 0, 0, 0, 0, 0, 0, 0, 0,
    // `turn`
    4, 116, 117, 114, 110, 0, 0, 0, 0, 0, 0, 0, 0, 0, 0, 0, 0, 0, 0, 0, 0, 0, 0, 0, 0, 0, 0, 0, 0,
    0, 0, 0, 0, 2, 123, 0, 0, 0, 0, 0, 0, 0, 255, 255, 0, 0, 0, 0,
    // `block`
    5, 98, 108, 111, 99, 107, 0, 0, 0, 0, 0, 0, 0, 0, 0, 0, 0, 0, 0, 0, 0, 0, 0, 0, 0, 0, 0, 0, 0,
    0, 0, 0, 0, 3, 0, 228, 11, 84, 2, 0, 0, 0, 0, 0, 0, 0, 0, 0,
];

// The letters of `and`, the first in the low byte.
const AND: u64 = 6581857;

// The second is the kind of a number without a unit.
const SECOND: u8 = 3;

// The set that holds the space alone: byte 32 is bit 32 of the first word.
const SPACE: ByteSet = ByteSet {
    word0: 4_294_967_296,
    word1: 0,
    word2: 0,
    word3: 0,
};

const NO_CONJUNCTION: Conjunction = Conjunction {
    size: 0,
    letters: 0,
};

// All switches on but the one after a sign; both sets hold the space; one conjunction.
pub fn settings() -> Settings
    ensures { result ≡ settings_A }
{
    Settings {
        negatives: true,
        fractions: true,
        exponents: true,
        infinity: true,
        ago: true,
        after_sign: false,
        before_unit: true,
        inner: SPACE,
        outer: SPACE,
        conjunctions: 1,
        first: Conjunction {
            size: 3,
            letters: AND,
        },
        second: NO_CONJUNCTION,
        third: NO_CONJUNCTION,
        fourth: NO_CONJUNCTION,
        default_kind: SECOND,
    }
}

pub fn table() -> [u8; 288]
    ensures { result ≡ table_A }
{
    TABLE
}
