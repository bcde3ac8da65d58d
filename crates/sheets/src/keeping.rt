// What is kept of a line whose end has not been read.
ghost use Rattle.std.specs.Prelude.{◌≡◌, length};
ghost use Rattle.writing.specs.Laid.{laid};
ghost use Rattle.sheets.specs.Keeping.{kept};

use rules::LONGEST_TEXT;

// Of the bytes from one place to another the first, as many as the longest text has and one more, are moved to the buffer's start;
// how many they are is handed back. What a line has beyond them changes no answer.
pub fn keep(buffer: &mut [u8], from: usize, end: usize) -> usize
    ensures value { result ≡ length (kept buffer.old from end) }
    ensures buffer_after { buffer.new ≡ laid buffer.old 0 (kept buffer.old from end) }
{
    let there = end.min(buffer.len());
    if there <= from {
        return 0;
    }
    let count = (there - from).min(LONGEST_TEXT + 1);
    buffer.copy_within(from..from + count, 0);
    count
}
