// Lines that may be moved, written to a target that has room for them: each is made of parts of its text.
ghost use Rattle.std.specs.Prelude.{◌≡◌, true, ◌+◌, ◌*◌, ◌≤◌, length, replicate};
ghost use Rattle.stored.specs.Lines.{line_size_in};
ghost use Rattle.writing.specs.Laid.{laid};
ghost use Rattle.moves.specs.Laws.Digits.{zero_digit};
ghost use Rattle.moves.specs.Laws.Moves.{line_moves, moved_line};
ghost use Rattle.moves.specs.Laws.Moves.{moved_pieces, AllMove};

use crate::form::{Room, ZERO_DIGIT, digits_up_to, line_at, name_size};

// Byte by byte: the library's copy calls the C library's `memmove`, which a board may not have.
fn copy(part: &[u8], target: &mut [u8], at: usize)
    requires { at + length part.now ≤ length target.old }
    ensures { target.new ≡ laid target.old at part.now }
{
    for i in 0..part.len() {
        target[at + i] = part[i];
    }
}

fn put_zeros(target: &mut [u8], at: usize, count: usize)
    requires { at + count ≤ length target.old }
    ensures { target.new ≡ laid target.old at (replicate count zero_digit) }
{
    target[at..at + count].fill(ZERO_DIGIT);
}

// The digits of its length and name, those of zeros up to the room's end, and the line from the kind on.
fn put_line(line: &[u8], target: &mut [u8], at: usize, from: Room, to: Room)
    requires moves { line_moves from.bytes to.bytes line.now ≡ true }
    requires fits { at + line_size_in to.bytes ≤ length target.old }
    ensures { target.new ≡ laid target.old at (moved_line from.bytes to.bytes line.now) }
{
    let size = name_size(line);
    let name_end = digits_up_to(size);
    let room_end = digits_up_to(from.bytes);
    let zeros_at = at + name_end;
    let fields_at = at + digits_up_to(to.bytes);
    copy(&line[..name_end], target, at);
    put_zeros(target, zeros_at, fields_at - zeros_at);
    copy(&line[room_end..], target, fields_at);
}

pub fn put_lines(source: &[u8], target: &mut [u8], from: Room, to: Room, count: usize)
    requires source_len { length source.now ≡ count * line_size_in from.bytes }
    requires fits { count * line_size_in to.bytes ≤ length target.old }
    requires all_move { AllMove from.bytes to.bytes source.now count }
    ensures { target.new ≡ laid target.old 0 (moved_pieces from.bytes to.bytes source.now count) }
{
    let old_size = from.line_size();
    let new_size = to.line_size();
    for line in 0..count {
        let piece = line_at(source, line * old_size, old_size);
        put_line(piece, target, line * new_size, from, to);
    }
}
