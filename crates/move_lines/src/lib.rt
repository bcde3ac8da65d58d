// Stored lines from standard input to standard output, moved from one form of a row to the other: all of them, or nothing but one line with the
// refusal's number and line. How lines are moved is proved in `mover`; here bytes are read and written.
#![tactic(auto)]

use lists::lines::first_bytes;
use lists::printed::print_place;
use lists::streams::{STDIN, STDOUT};
use rules::Answer;

// The bytes of 4,096 lines in the old form and in the new one: as many lines are taken.
pub const OLD_LINES: usize = 266_240;

pub const NEW_LINES: usize = 397_312;

// The same and one byte more, which tells that there are more lines.
pub const PAST_OLD_LINES: usize = 266_241;

pub const PAST_NEW_LINES: usize = 397_313;

// All of standard input, of which the source has room for all bytes that are taken and one more, by way of a target that has room for what becomes of
// them. Where more was read than is taken, a bad line in what is taken is told, or else that there is no room for all: that is what a target without
// room gets.
pub fn move_input<M: Fn(&[u8], &mut [u8]) -> Answer>(
    move_lines: M,
    source: &mut [u8],
    target: &mut [u8],
)
    requires { M.IsAlwaysCallable move_lines }
{
    let most = source.len().saturating_sub(1);
    let size = io::read_full(STDIN, source);
    let answer = if size > most {
        move_lines(first_bytes(source, most), &mut [])
    } else {
        move_lines(first_bytes(source, size), target)
    };
    if answer.number == 0 {
        io::write_all(STDOUT, first_bytes(target, answer.position));
    } else {
        print_place(answer, b"\n");
    }
}
