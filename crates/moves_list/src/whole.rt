// Lists of lines as they are, moved into targets of several sizes, and with a byte behind their last line.
use crate::forms::{Form, mixed_move, mixed_refusal};
use lists::fields::further;
use lists::lines::part;
use lists::sums::BEGIN;
use printing::NEWLINE;

// So many bytes of a longer target are behind the lines.
const SPARE: usize = 3;

// A list moved into a target that is just large enough, and into a longer one.
pub fn moved_whole(form: Form, lines: &[u8], count: usize) -> u64 {
    let source = part(lines, 0, form.size_of(count));
    let size = form.other().size_of(count);
    let sum = mixed_move(form, source, size, BEGIN);
    mixed_move(form, source, further(size, SPARE), sum)
}

// A list that is not empty, moved into a target that is one byte too short, and into none.
fn short_from(form: Form, lines: &[u8], count: usize, before: u64) -> u64 {
    let size = form.other().size_of(count);
    if size == 0 {
        return before;
    }
    let source = part(lines, 0, form.size_of(count));
    let sum = mixed_refusal(form, source, size - 1, before);
    mixed_refusal(form, source, 0, sum)
}

pub fn too_short(new: &[u8], old: &[u8], count: usize) -> u64 {
    short_from(
        Form::Old,
        old,
        count,
        short_from(Form::New, new, count, BEGIN),
    )
}

// A list and one byte more: the first digit of another line, and then a newline, in the place of which that digit is put back.
fn behind_from(form: Form, lines: &mut [u8], count: usize, before: u64) -> u64 {
    let end = form.size_of(count);
    let size = form.other().size_of(further(count, 1));
    if lines.len() <= end {
        return 0;
    }
    let digit = lines[end];
    let sum = mixed_refusal(form, part(lines, 0, further(end, 1)), size, before);
    lines[end] = NEWLINE;
    let then = mixed_refusal(form, part(lines, 0, further(end, 1)), size, sum);
    lines[end] = digit;
    then
}

pub fn behind(new: &mut [u8], old: &mut [u8], count: usize) -> u64 {
    let sum = behind_from(Form::New, new, count, BEGIN);
    behind_from(Form::Old, old, count, sum)
}
