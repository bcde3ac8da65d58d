// Stored lines moved from one form of a row to another, each told by the room that it has for a name: all of them, or none.
#![tactic(auto)]

ghost use Rattle.std.specs.Prelude.{◌≡◌};
ghost use Rattle.moves.specs.NamesLongerThanSixteenBytes.{move_answer, moved_target};

use answers::{done, refusal};
use checked::lines_check;
pub use form::Room;
use lengths::duration::zero;
use rules::{Answer, Refusal};
use written::put_lines;

mod checked;
mod form;
mod written;

// Line by line, then the target's length, and only then the first byte is written. The length is divided: what many lines take may be more than a word
// holds.
pub fn move_lines(source: &[u8], target: &mut [u8], from: Room, to: Room) -> Answer
    ensures value { result ≡ move_answer from.bytes to.bytes source.now target.old }
    ensures target_after { target.new ≡ moved_target from.bytes to.bytes source.now target.old }
{
    match lines_check(source, from, to) {
        Err(cause) => refusal(cause),
        Ok(count) => {
            let size = to.line_size();
            if target.len() / size < count {
                return refusal(Refusal::NoRoom(0));
            }
            put_lines(source, target, from, to, count);
            done(count * size, zero())
        }
    }
}
