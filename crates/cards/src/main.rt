// Checks stored cards again and prints number and position of each, and how many there are.
// The first line says how often each card is checked, once for a test and often to count instructions: eight hexadecimal digits,
// the lowest byte first. The cards follow.
#![tactic(auto)]

use answers::refusal;
use card::table::card_check;
use lists::cards::{Lent, Room};
use lists::fields::half_at;
use lists::lines::{MOST_ENTRIES, read_line, until_end};
use lists::printed::{print_number, print_place};
use lists::streams::STDOUT;
use rules::Refusal;

// Bytes of the first line.
const ROUNDS: usize = 9;

fn check(card: Lent<'_>) -> Result<(), Refusal> {
    card_check(card.settings, card.hall, card.line, card.numerals)
}

fn check_often(card: Lent<'_>, rounds: u32) -> Result<(), Refusal> {
    for _ in 1..rounds {
        let _ = check(card);
    }
    check(card)
}

fn print(checked: Result<(), Refusal>) {
    match checked {
        Ok(()) => {
            io::write_all(STDOUT, b"0 0\n");
        }
        Err(cause) => print_place(refusal(cause), b"\n"),
    }
}

// One card read, checked and printed; None where the list ends.
fn check_next(room: &mut Room, rounds: u32) -> Option<()> {
    print(check_often(room.next_card()?, rounds));
    Some(())
}

fn check_all(rounds: u32) {
    let mut room = Room::new();
    let cards = until_end(MOST_ENTRIES, || check_next(&mut room, rounds));
    print_number(cards, b" cards\n");
}

fn main() {
    let mut head = [0u8; ROUNDS];
    if read_line(&mut head).is_some() {
        check_all(half_at(&head, 0));
    }
}
