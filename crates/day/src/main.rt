// Adds a day's texts to the shift total one after another, and prints number and position of each answer and the total as the writer
// writes it. The first line says how often a total is written, once for a test and often to count instructions: eight hexadecimal
// digits, the lowest byte first. The card follows, and then the texts, each a line of hexadecimal digits (run and size) and the line of
// its bytes.
#![tactic(auto)]

use entries::{shifted_total, write_length};
use lengths::duration::zero;
use lists::cards::{Lent, Room};
use lists::fields::half_at;
use lists::lines::{MOST_ENTRIES, first_bytes, read_line, until_end};
use lists::often::often;
use lists::printed::print_place;
use lists::streams::STDOUT;
use lists::texts::{ROOM, TEXT, next_text};
use rules::Length;

// Bytes of the first line.
const ROUNDS: usize = 9;

// Room for one length, the longest of which has 31 bytes.
const ONE: usize = 32;

// A total, written so often at the start of a buffer.
fn print_total(total: Length, rounds: u32) {
    let mut buffer = [0u8; ONE];
    let written = often(rounds, |place| write_length(total, &mut buffer, place));
    io::write_all(STDOUT, first_bytes(&buffer, written.position));
    io::write_all(STDOUT, b"\n");
}

// The next text, put into the buffer, added to the total and printed: the total then. None where the list ends.
fn add_next(total: Length, card: Lent<'_>, buffer: &mut [u8], rounds: u32) -> Option<Length> {
    let mut head = [0u8; TEXT];
    let size = next_text(&mut head, 0, buffer)?;
    let text = first_bytes(buffer, size);
    let shifted = shifted_total(
        total,
        card.settings,
        card.hall,
        card.line,
        card.numerals,
        text,
    );
    print_place(shifted.answer, b" ");
    print_total(shifted.total, rounds);
    Some(shifted.total)
}

// Every text of the list.
fn add_all(card: Lent<'_>, rounds: u32) {
    let mut buffer = [0u8; ROOM];
    let mut total = zero();
    until_end(MOST_ENTRIES, || {
        total = add_next(total, card, &mut buffer, rounds)?;
        Some(())
    });
}

// The first line, the card, and its texts. None where the list ends before them.
fn add_list() -> Option<()> {
    let mut head = [0u8; ROUNDS];
    read_line(&mut head)?;
    let mut room = Room::new();
    add_all(room.next_card()?, half_at(&head, 0));
    Some(())
}

fn main() {
    add_list();
}
