// Stored lines of the new form, moved to the old one.
#![tactic(auto)]

use move_entries::move_to_old;
use move_lines::{OLD_LINES, PAST_NEW_LINES, move_input};

fn main() {
    let mut source = [0u8; PAST_NEW_LINES];
    let mut target = [0u8; OLD_LINES];
    move_input(move_to_old, &mut source, &mut target);
}
