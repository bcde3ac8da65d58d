// Words, compared with the text at a place in any case.
ghost use Rattle.std.specs.Prelude.{◌≡◌, true, drop};
ghost use Rattle.rules.specs.Common.{all};
ghost use Rattle.rules.specs.SettingsAndUnitTable.{LETTER, is, low_bytes};
ghost use Rattle.rules.specs.ReadingOnePart.{says};
ghost use Rattle.steps.specs.Letters.{matching};

use crate::bytes::same_letter;

// How many letters of the word stand at the place, one after another. A loop by index, for its speed (see the crate's head).
pub fn letters_matching(word: &[u8], text: &[u8], place: usize) -> usize
    requires { all (is LETTER) word.now ≡ true }
    ensures { result ≡ matching word.now (drop place text.now) }
{
    let mut count = 0;
    let mut next = place;
    while count < word.len() {
        if text.len() <= next {
            return count;
        }
        if !same_letter(word[count], text[next]) {
            return count;
        }
        count += 1;
        next += 1;
    }
    count
}

pub fn next_is_ignore_ascii_case(word: &[u8], text: &[u8], place: usize) -> bool
    requires { all (is LETTER) word.now ≡ true }
    ensures { result ≡ says word.now text.now place }
{
    letters_matching(word, text, place) == word.len()
}

// The same for a word of which the letters stand in a number, the first in the low byte: no bytes of it are put on the stack.
pub fn next_is_letters(size: u8, letters: u64, text: &[u8], place: usize) -> bool
    requires { all (is LETTER) (low_bytes size letters) ≡ true }
    ensures { result ≡ says (low_bytes size letters) text.now place }
{
    let mut left = size;
    let mut rest = letters;
    let mut next = place;
    while left > 0 {
        if text.len() <= next {
            return false;
        }
        if !same_letter((rest % 256) as u8, text[next]) {
            return false;
        }
        rest = rest / 256;
        left -= 1;
        next += 1;
    }
    true
}
