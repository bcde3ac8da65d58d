// Texts of a list: bytes as a line of hexadecimal digits, and a run that is not written out. Run and size stand in a line before.
use crate::fields::{byte_at, further, half_at, short_at};
use crate::lines::read_line;

// Bytes of a line that says run and size of a text and nothing else.
pub const TEXT: usize = 13;

// Room for the line of a text that is a little longer than a text may be.
pub const ROOM: usize = 16_384;

// How far behind the run the size stands.
const RUN: usize = 8;

// A line of digits, and at its start the bytes that they stand for. A byte is never put beyond its digits, and those before them have
// been read. None where the list ends.
fn read_bytes(line: &mut [u8]) -> Option<()> {
    read_line(line)?;
    for i in 0..line.len() / 2 {
        line[i] = byte_at(line, 2 * i);
    }
    Some(())
}

// A text, put at the start of a buffer: so many bytes from the next line, and before them their first byte so many times more,
// since the longest texts are runs. None where the list ends or the buffer has no room for the line.
fn read_text(text: &mut [u8], run: u32, size: u16) -> Option<()> {
    let at = run as usize;
    let end = at + 2 * size as usize + 1;
    if end > text.len() {
        return None;
    }
    read_bytes(&mut text[at..end])?;
    let first = text[at];
    text[..at].fill(first);
    Some(())
}

// The next line of a list, and the text behind it, put at the start of a buffer: how many bytes it has. Its run and its size stand at a
// place of the line. None where the list ends or there is no room.
pub fn next_text(line: &mut [u8], place: usize, text: &mut [u8]) -> Option<usize> {
    read_line(line)?;
    let run = half_at(line, place);
    let size = short_at(line, further(place, RUN));
    read_text(text, run, size)?;
    Some(run as usize + size as usize)
}
