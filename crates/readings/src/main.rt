// Reads stored texts under a card, and prints number, position and length of each. The first line says how often each text is read,
// once for a test and often to count instructions, and whether the card is checked in each call (1) or once for all: a number of four
// bytes, the lowest first, and one of a byte, as hexadecimal digits. The card follows, and then the texts, each a line of hexadecimal
// digits (run and size) and the line of its bytes. Of a card that is refused once for all number and position are printed, and no text
// is read.
#![tactic(auto)]

use answers::refusal;
use card::table::card_check;
use entries::read_total;
use lists::cards::{Lent, Room};
use lists::fields::{flag_at, further, half_at};
use lists::lines::{first_bytes, read_line};
use lists::printed::print_answer;
use lists::texts::{ROOM, TEXT, next_text};
use reading::checked::read_total_checked;
use reading::ready::AcceptedCard;
use rules::Answer;

// Bytes of the first line.
const ROUNDS: usize = 11;

// Where the first line says whether the card is checked in each call.
const IN_EACH_CALL_AT: usize = 8;

// More texts than any list has, since a proved loop has to end.
const MOST_TEXTS: u64 = 1_000_000;

// The first bytes of a buffer, read so often. The number of an answer is below 17, so 0 is added to the size each time; but the
// compiler does not know that, and so a round waits for the answer of the one before it and none can be left out.
fn read_often<F: Fn(&[u8]) -> Answer>(read: F, buffer: &[u8], size: usize, rounds: u32) -> Answer
    requires { F.IsAlwaysCallable read }
{
    let mut answer = read(first_bytes(buffer, size));
    for _ in 1..rounds {
        let more = (answer.number / 200) as usize;
        answer = read(first_bytes(buffer, further(size, more)));
    }
    answer
}

// One text put into the buffer, read and printed. None where the list ends.
fn read_next<F: Fn(&[u8]) -> Answer>(read: F, buffer: &mut [u8], rounds: u32) -> Option<()>
    requires { F.IsAlwaysCallable read }
{
    let mut head = [0u8; TEXT];
    let size = next_text(&mut head, 0, buffer)?;
    print_answer(read_often(read, buffer, size, rounds));
    Some(())
}

// Every text of the list. It is made for each way to read, since a choice within the loop would be counted.
fn read_all<F: Fn(&[u8]) -> Answer>(read: F, rounds: u32)
    requires { F.IsAlwaysCallable read }
{
    let mut buffer = [0u8; ROOM];
    for _ in 0..MOST_TEXTS {
        if read_next(&read, &mut buffer, rounds).is_none() {
            return;
        }
    }
}

fn read_under(card: Lent<'_>, rounds: u32, in_each_call: bool) {
    if let Err(cause) = card_check(card.settings, card.hall, card.line, card.numerals) {
        print_answer(refusal(cause));
    } else if in_each_call {
        let read = |text: &[u8]| read_total(
            card.settings,
            card.hall,
            card.line,
            card.numerals,
            text,
        );
        read_all(read, rounds);
    } else {
        let ready = AcceptedCard::without_indexes(
            card.settings,
            card.hall,
            card.line,
            card.numerals,
        );
        read_all(|text: &[u8]| read_total_checked(&ready, text), rounds);
    }
}

fn read_list() -> Option<()> {
    let mut head = [0u8; ROUNDS];
    read_line(&mut head)?;
    let mut room = Room::new();
    read_under(
        room.next_card()?,
        half_at(&head, 0),
        flag_at(&head, IN_EACH_CALL_AT),
    );
    Some(())
}

fn main() {
    let _ = read_list();
}
