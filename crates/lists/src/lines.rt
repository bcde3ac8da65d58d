// Lines of a list, from standard input. Their sizes are known before they are read, so a line is one read.
use crate::streams::STDIN;

// More entries than a list has, since a proved loop has to end.
pub const MOST_ENTRIES: u64 = 1_000_000;

// Fills a line, its newline included. None where the list ends.
pub fn read_line(line: &mut [u8]) -> Option<()> {
    let got = io::read_full(STDIN, line);
    (line.len() <= got).then_some(())
}

// A step done again and again until it finds the list's end, at most so often, and how often it did not find it.
pub fn until_end<F: FnMut() -> Option<()>>(most: u64, mut step: F) -> u64
    requires { F.IsAlwaysCallable step }
{
    for turn in 0..most {
        if step().is_none() {
            return turn;
        }
    }
    most
}

// The first bytes of a buffer, or all that it has.
pub fn first_bytes(buffer: &[u8], size: usize) -> &[u8] {
    buffer.get(..size).unwrap_or(buffer)
}

// So many bytes from a place on, or none where there are not so many.
pub fn part(bytes: &[u8], at: usize, size: usize) -> &[u8] {
    let behind = bytes.get(at..).unwrap_or(&[]);
    behind.get(..size).unwrap_or(&[])
}
