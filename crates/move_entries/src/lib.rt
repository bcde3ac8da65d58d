// Stored lines moved between the two forms of a row: all of them, or none. Each entry promises its answer for all arguments and asks nothing.
#![tactic(auto)]

ghost use Rattle.std.specs.Prelude.{◌≡◌};
ghost use Rattle.moves.specs.NamesLongerThanSixteenBytes.{to_new_answer, new_target, to_old_answer, old_target};

use mover::{Room, move_lines};
use rules::Answer;

// The room that each form has for a name.
const NEW_ROOM: Room = Room { bytes: 32 };

const OLD_ROOM: Room = Room { bytes: 16 };

// Lines of the old form to the new one.
pub fn move_to_new(source: &[u8], target: &mut [u8]) -> Answer
    ensures value { result ≡ to_new_answer source.now target.old }
    ensures target_after { target.new ≡ new_target source.now target.old }
{
    move_lines(source, target, OLD_ROOM, NEW_ROOM)
}

// Lines of the new form to the old one.
pub fn move_to_old(source: &[u8], target: &mut [u8]) -> Answer
    ensures value { result ≡ to_old_answer source.now target.old }
    ensures target_after { target.new ≡ old_target source.now target.old }
{
    move_lines(source, target, NEW_ROOM, OLD_ROOM)
}
