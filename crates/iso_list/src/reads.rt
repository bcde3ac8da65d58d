// The stored texts, each a line of hexadecimal digits (run and size) and the line of its bytes.
use iso_entries::read_iso;
use lists::counts::{Counts, count, print_count};
use lists::lines::{MOST_ENTRIES, first_bytes, until_end};
use lists::printed::print_answer;
use lists::texts::{ROOM, TEXT, next_text};

// One text put into the buffer: how many bytes it has. None where the list ends.
pub fn put_next(buffer: &mut [u8]) -> Option<usize> {
    let mut line = [0u8; TEXT];
    next_text(&mut line, 0, buffer)
}

// One text put into the buffer, read and printed. None where the list ends.
fn read_next(buffer: &mut [u8], counts: &mut Counts) -> Option<()> {
    let size = put_next(buffer)?;
    let answer = read_iso(first_bytes(buffer, size));
    print_answer(answer);
    count(&mut counts.entries);
    counts.count_answer(answer.number, true);
    Some(())
}

fn read_texts(counts: &mut Counts) {
    let mut buffer = [0u8; ROOM];
    until_end(MOST_ENTRIES, || read_next(&mut buffer, counts));
}

pub fn read_all() {
    let mut counts = Counts::new();
    read_texts(&mut counts);
    print_count(b"texts: ", counts.entries);
    counts.print_answers(b" of the reader: ", 0);
}
