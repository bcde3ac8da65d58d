// Stored lines of the old form, moved to the new one.
#![tactic(auto)]

use move_entries::move_to_new;
use move_lines::{NEW_LINES, PAST_OLD_LINES, move_input};

fn main() {
    let mut source = [0u8; PAST_OLD_LINES];
    let mut target = [0u8; NEW_LINES];
    move_input(move_to_new, &mut source, &mut target);
}
