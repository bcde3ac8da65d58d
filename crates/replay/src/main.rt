// Makes stored requests again of the two entries, and prints how many there are, under how many cards, how many differ from the
// stored answer, and how many answers there were of each number.
// A card of the list is followed by a line that says how many requests are made under it, and by these. A request is a line of
// hexadecimal digits (entry, place, run and size of the text, number, position, length) and the line of its text.
#![tactic(auto)]

use entries::{read_part, read_total};
use lists::cards::{Lent, Room};
use lists::counts::{Counts, MOST, NUMBERS, count};
use lists::fields::{byte_at, flag_at, half_at, length_at, word_at};
use lists::lines::{first_bytes, read_line, until_end};
use lists::printed::{print_answer, print_number};
use lists::streams::STDOUT;
use lists::texts::next_text;
use rules::Answer;

// Bytes of the line that says how many requests follow.
const COUNT: usize = 9;

// Where each field of a request's line stands, and how many bytes the line has.
const ENTRY_AT: usize = 0;

const PLACE_AT: usize = 2;

const TEXT_AT: usize = 18;

const NUMBER_AT: usize = 30;

const POSITION_AT: usize = 32;

const LENGTH_AT: usize = 48;

const REQUEST: usize = 75;

// Room for the longest run of a list and the line behind it.
const TEXT_ROOM: usize = 81_920;

// So many differing requests are shown.
const SHOWN: u64 = 10;

// What a request's line says was answered.
fn stored_answer(request: &[u8]) -> Answer {
    Answer {
        number: byte_at(request, NUMBER_AT),
        position: word_at(request, POSITION_AT) as usize,
        length: length_at(request, LENGTH_AT),
    }
}

// The request of a line, made again under a card.
fn ask(card: Lent<'_>, text: &[u8], request: &[u8]) -> Answer {
    if flag_at(request, ENTRY_AT) {
        let place = word_at(request, PLACE_AT) as usize;
        read_part(
            card.settings,
            card.hall,
            card.line,
            card.numerals,
            text,
            place,
        )
    } else {
        read_total(card.settings, card.hall, card.line, card.numerals, text)
    }
}

// A request that differs, by its place in the list, and the answer that was found. The first of them are shown.
fn show(answer: Answer, counts: &Counts) {
    if counts.differ <= SHOWN {
        io::write_all(STDOUT, b"request ");
        print_number(counts.entries, b" differs: ");
        print_answer(answer);
    }
}

fn compare(answer: Answer, stored: Answer, counts: &mut Counts) {
    let agrees = answer == stored;
    count(&mut counts.entries);
    counts.count_answer(answer.number, agrees);
    if !agrees {
        show(answer, counts);
    }
}

// The next request of the list, made again under a card. None where the list ends.
fn replay_next(card: Lent<'_>, text: &mut [u8], counts: &mut Counts) -> Option<()> {
    let mut request = [0u8; REQUEST];
    let size = next_text(&mut request, TEXT_AT, text)?;
    let answer = ask(card, first_bytes(text, size), &request);
    compare(answer, stored_answer(&request), counts);
    Some(())
}

// The next card of the list, and the requests under it, of which a line says how many there are. None where the list ends.
fn replay_card(room: &mut Room, text: &mut [u8], counts: &mut Counts) -> Option<()> {
    let card = room.next_card()?;
    let mut head = [0u8; COUNT];
    read_line(&mut head)?;
    count(&mut counts.cards);
    for _ in 0..half_at(&head, 0) {
        replay_next(card, text, counts)?;
    }
    Some(())
}

// Every card of the list.
fn replay_all(counts: &mut Counts) {
    let mut room = Room::new();
    let mut text = [0u8; TEXT_ROOM];
    until_end(MOST, || replay_card(&mut room, &mut text, counts));
}

fn main() {
    let mut counts = Counts::new();
    replay_all(&mut counts);
    print_number(counts.entries, b" requests under ");
    print_number(counts.cards, b" cards, ");
    print_number(counts.differ, b" differ\n");
    counts.print_answers(b": ", NUMBERS);
}
