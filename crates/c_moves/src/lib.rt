// The entries for C that move stored lines between the two forms of a row.
#![tactic(auto)]

ghost use Rattle.std.specs.Prelude.{◌≡◌};
ghost use Rattle.moves.specs.NamesLongerThanSixteenBytes.{to_new_answer, new_target, to_old_answer, old_target};
ghost use Rattle.c_words.specs.Words.{answer_words};

use c_words::put_answer;
use move_entries::{move_to_new, move_to_old};

#[unsafe(no_mangle)]
pub extern "C" fn herovinga_move_to_new(
    source: &[u8],
    target: &mut [u8],
    answer: &mut [u64; 4],
) -> u8
    ensures value { result ≡ (to_new_answer source.now target.old).number }
    ensures answer_after { answer.new ≡ answer_words (to_new_answer source.now target.old) }
    ensures target_after { target.new ≡ new_target source.now target.old }
{
    let moved = move_to_new(source, target);
    put_answer(moved, answer)
}

#[unsafe(no_mangle)]
pub extern "C" fn herovinga_move_to_old(
    source: &[u8],
    target: &mut [u8],
    answer: &mut [u64; 4],
) -> u8
    ensures value { result ≡ (to_old_answer source.now target.old).number }
    ensures answer_after { answer.new ≡ answer_words (to_old_answer source.now target.old) }
    ensures target_after { target.new ≡ old_target source.now target.old }
{
    let moved = move_to_old(source, target);
    put_answer(moved, answer)
}
