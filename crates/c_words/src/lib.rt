// Lengths, answers and what a lookup found as the 64-bit words that C passes and gets back. Settings are lent as words throughout (settings::fields).
#![tactic(auto)]

ghost use Rattle.std.specs.Prelude.{◌≡◌};
ghost use Rattle.rules.specs.SettingsAsWords.{held_to};
ghost use Rattle.c_words.specs.Words.{most_of_a_half, length_of, length_words, answer_words, found_words};

use index::LookedUp;
use rules::{Answer, Length};
use settings::fields::bit;

// Nanoseconds. What they cannot be is malformed: cut to 32 bits it could pass for another number.
fn held_to_half(word: u64) -> u32
    ensures { result ≡ held_to most_of_a_half word }
{
    u32::try_from(word).unwrap_or(u32::MAX)
}

pub fn length_of(words: &[u64; 3]) -> Length
    ensures { result ≡ length_of words.now }
{
    Length {
        negative: words[0] != 0,
        seconds: words[1],
        nanoseconds: held_to_half(words[2]),
    }
}

pub fn put_total(total: Length, words: &mut [u64; 3])
    ensures { words.new ≡ length_words total }
{
    *words = [bit(total.negative), total.seconds, total.nanoseconds as u64];
}

// The answer's words; its number is the entry's result.
pub fn put_answer(answer: Answer, words: &mut [u64; 4]) -> u8
    ensures { (result ≡ answer.number) × (words.new ≡ answer_words answer) }
{
    let length = answer.length;
    *words = [
        answer.position as u64,
        bit(length.negative),
        length.seconds,
        length.nanoseconds as u64,
    ];
    answer.number
}

// The words of what a lookup found; its number is the entry's result.
pub fn put_found(found: LookedUp, words: &mut [u64; 4]) -> u8
    ensures { (result ≡ found.number) × (words.new ≡ found_words found) }
{
    *words = [
        found.position as u64,
        found.table as u64,
        found.row as u64,
        found.compared as u64,
    ];
    found.number
}
