// Indexes beside the unit tables of stored cards. Of each card both indexes are made; that of the hall's table is checked turned and with
// entries exchanged; each name of both tables is looked up both ways, and names beside it; the text behind the card is read through the
// indexes, and with the line's left out; and each row of the hall's table is replaced by one of the line's. Of each card it prints how many
// rows the tables have and a check sum of what was handed back at each step, and both answers of the text; at the end how many cards there
// were.
#![tactic(auto)]

mod indexes;
mod lookups;
mod replaced;

use index_entries::read_total_indexed;
use indexes::{INDEX, ROW, TWICE, exchanged, make_twice, turned};
use lists::cards::Room;
use lists::lines::{MOST_ENTRIES, first_bytes, part, until_end};
use lists::printed::{print_answer, print_number};
use lists::texts::{ROOM, TEXT, next_text};
use lookups::{Indexed, look_up_all};
use replaced::replace_first;

// The text behind a card, read through both indexes and with the line's left out, and printed. None where the list ends.
fn read_next(card: Indexed<'_>) -> Option<()> {
    let mut head = [0u8; TEXT];
    let mut buffer = [0u8; ROOM];
    let size = next_text(&mut head, 0, &mut buffer)?;
    let text = first_bytes(&buffer, size);
    for line_index in [card.line_index, b""] {
        let Indexed {
            settings,
            hall,
            hall_index,
            line,
            ..
        } = card;
        print_answer(read_total_indexed(settings, hall, hall_index, line, line_index, b"", text));
    }
    Some(())
}

// Both indexes made, the hall's tried, names looked up through them, and the text behind the card read. None where the list ends.
fn try_indexes(settings: &[u64; 25], hall: &[u8], line: &[u8]) -> Option<()> {
    let rows = hall.len() / ROW;
    let line_rows = line.len() / ROW;
    let mut of_hall = [0u8; TWICE];
    let mut of_line = [0u8; TWICE];
    let mut index = [0u8; INDEX];
    print_number(rows as u64, b" ");
    print_number(line_rows as u64, b" ");
    print_number(make_twice(settings, hall, &mut of_hall, rows), b" ");
    print_number(make_twice(settings, line, &mut of_line, line_rows), b" ");
    print_number(turned(settings, hall, &of_hall, rows), b" ");
    print_number(exchanged(settings, hall, &mut index, rows), b" ");
    let card = Indexed {
        settings,
        hall,
        hall_index: part(&of_hall, 0, rows),
        line,
        line_index: part(&of_line, 0, line_rows),
    };
    print_number(look_up_all(card), b"\n");
    read_next(card)
}

// All that is tried of the next card of the list. None where the list ends.
fn try_next(room: &mut Room) -> Option<()> {
    let card = room.next_card()?;
    let more = try_indexes(card.settings, card.hall, card.line);
    let hall_size = card.hall.len();
    let line_size = card.line.len();
    let others = first_bytes(&room.line, line_size);
    let replaced = replace_first(&room.settings, &mut room.hall, hall_size, others);
    print_number(replaced, b"\n");
    more
}

// Each card that the list has.
fn main() {
    let mut room = Room::new();
    let cards = until_end(MOST_ENTRIES, || try_next(&mut room));
    print_number(cards, b" cards\n");
}
