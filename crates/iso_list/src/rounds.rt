// One text more, behind the list, read so often and its length written so often, to count instructions. A line says how often each: two
// numbers of four bytes, the lowest first, as hexadecimal digits. Where no line follows the list, nothing is done; where one does, the list
// has to end with a text for which there is no room.
use crate::reads::put_next;
use iso_entries::{read_iso, write_iso};
use lists::fields::{further, half_at};
use lists::lines::{first_bytes, read_line};
use lists::often::often;
use lists::printed::print_answer;
use lists::streams::STDOUT;
use lists::texts::ROOM;
use rules::{Answer, Length};

// Bytes of the line, and where it says how often is read and written.
const ROUNDS: usize = 17;

const READ_AT: usize = 0;

const WRITTEN_AT: usize = 8;

// Room for one length, the longest of which has 35 bytes.
const ONE: usize = 64;

// The first bytes of a buffer, read so often.
fn read_often(buffer: &[u8], size: usize, rounds: u32) -> Answer {
    often(
        rounds,
        |more| read_iso(first_bytes(buffer, further(size, more))),
    )
}

// A length written so often, each time at the start.
fn write_often(length: Length, buffer: &mut [u8], rounds: u32) -> usize {
    often(rounds, |place| write_iso(length, buffer, place)).position
}

fn print_written(length: Length, rounds: u32) {
    let mut one = [0u8; ONE];
    let size = write_often(length, &mut one, rounds);
    io::write_all(STDOUT, first_bytes(&one, size));
    io::write_all(STDOUT, b"\n");
}

// The text behind the line, read and written so often.
fn repeat_text(reads: u32, writes: u32) -> Option<()> {
    let mut buffer = [0u8; ROOM];
    let size = put_next(&mut buffer)?;
    let answer = read_often(&buffer, size, reads);
    print_answer(answer);
    print_written(answer.length, writes);
    Some(())
}

pub fn repeat_one() -> Option<()> {
    let mut line = [0u8; ROUNDS];
    read_line(&mut line)?;
    repeat_text(half_at(&line, READ_AT), half_at(&line, WRITTEN_AT))
}
