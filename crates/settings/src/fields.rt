// The settings as they are lent: the 25 words that C passes. Each field is read by its name, and nothing else knows where a field
// stands. What the words mean is the definitions' `settings_of`.
ghost use Rattle.std.specs.Prelude.{◌≡◌, ◌+◌, ◌<◌, get_or};
ghost use Rattle.rules.specs.SettingsAsWords.{held_to, most_of_a_byte, bit, set_of, settings_of, settings_words};
ghost use Rattle.settings.specs.Conjunctions.{conjunctions_listed};

use rules::{ByteSet, Conjunction, Settings};

// Where the two sets and the conjunctions stand, and the last of the four conjunctions.
const INNER_AT: usize = 7;

const OUTER_AT: usize = 11;

const FIRST_AT: usize = 16;

const LAST_CONJUNCTION: u8 = 3;

// Each switch is a word at a place of its own. Nothing shared would be plainer than the one expression.
pub fn negatives(settings: &[u64; 25]) -> bool
    ensures { result ≡ (settings_of settings.now).negatives }
{
    settings[0] != 0
}

pub fn fractions(settings: &[u64; 25]) -> bool
    ensures { result ≡ (settings_of settings.now).fractions }
{
    settings[1] != 0
}

pub fn exponents(settings: &[u64; 25]) -> bool
    ensures { result ≡ (settings_of settings.now).exponents }
{
    settings[2] != 0
}

pub fn infinity(settings: &[u64; 25]) -> bool
    ensures { result ≡ (settings_of settings.now).infinity }
{
    settings[3] != 0
}

pub fn ago(settings: &[u64; 25]) -> bool
    ensures { result ≡ (settings_of settings.now).ago }
{
    settings[4] != 0
}

pub fn after_sign(settings: &[u64; 25]) -> bool
    ensures { result ≡ (settings_of settings.now).after_sign }
{
    settings[5] != 0
}

pub fn before_unit(settings: &[u64; 25]) -> bool
    ensures { result ≡ (settings_of settings.now).before_unit }
{
    settings[6] != 0
}

// The set whose first word stands at this place.
fn set_at(settings: &[u64; 25], at: usize) -> ByteSet
    requires { at + 3 < 25 }
    ensures { result ≡ set_of settings.now at }
{
    ByteSet {
        word0: settings[at],
        word1: settings[at + 1],
        word2: settings[at + 2],
        word3: settings[at + 3],
    }
}

#[tactic(auto, unfolding(rules::specs::SettingsAsWords::settings_of, rules::specs::SettingsAsWords::set_of))]
pub fn inner(settings: &[u64; 25]) -> ByteSet
    ensures { result ≡ (settings_of settings.now).inner }
{
    set_at(settings, INNER_AT)
}

#[tactic(auto, unfolding(rules::specs::SettingsAsWords::settings_of, rules::specs::SettingsAsWords::set_of))]
pub fn outer(settings: &[u64; 25]) -> ByteSet
    ensures { result ≡ (settings_of settings.now).outer }
{
    set_at(settings, OUTER_AT)
}

// A count, a size or a kind. What is no byte is 255, which is refused as all that is too large: cut to eight bits it could pass for
// another number.
fn held_to_byte(word: u64) -> u8
    ensures { result ≡ held_to most_of_a_byte word }
{
    u8::try_from(word).unwrap_or(u8::MAX)
}

pub fn conjunctions(settings: &[u64; 25]) -> u8
    ensures { result ≡ (settings_of settings.now).conjunctions }
{
    held_to_byte(settings[15])
}

// The conjunction at this place of the four. Each is a size and its letters.
pub fn conjunction_at(settings: &[u64; 25], i: u8) -> Conjunction
    ensures { result ≡ get_or (conjunctions_listed (settings_of settings.now)) i (settings_of settings.now).fourth }
{
    let at = FIRST_AT + 2 * i.min(LAST_CONJUNCTION) as usize;
    Conjunction {
        size: held_to_byte(settings[at]),
        letters: settings[at + 1],
    }
}

pub fn default_kind(settings: &[u64; 25]) -> u8
    ensures { result ≡ (settings_of settings.now).default_kind }
{
    held_to_byte(settings[24])
}

// A switch, or a sign, as a word.
pub fn bit(b: bool) -> u64
    ensures { result ≡ bit b }
{
    u64::from(b)
}

// The words of a record, for a caller in Rattle.
pub fn words_of(s: Settings) -> [u64; 25]
    ensures { (result ≡ settings_words s) × (settings_of result ≡ s) }
{
    let inner = s.inner;
    let outer = s.outer;
    let first = s.first;
    let second = s.second;
    let third = s.third;
    let fourth = s.fourth;
    [
        bit(s.negatives),
        bit(s.fractions),
        bit(s.exponents),
        bit(s.infinity),
        bit(s.ago),
        bit(s.after_sign),
        bit(s.before_unit),
        inner.word0,
        inner.word1,
        inner.word2,
        inner.word3,
        outer.word0,
        outer.word1,
        outer.word2,
        outer.word3,
        s.conjunctions as u64,
        first.size as u64,
        first.letters,
        second.size as u64,
        second.letters,
        third.size as u64,
        third.letters,
        fourth.size as u64,
        fourth.letters,
        s.default_kind as u64,
    ]
}
