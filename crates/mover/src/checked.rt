// All lines of a source, checked before any is moved.
ghost use Rattle.std.specs.Prelude.{◌≡◌, ◌≤◌, eqb};
ghost use Rattle.rules.specs.Common.{all};
ghost use Rattle.rules.specs.SettingsAndUnitTable.{name_room};
ghost use Rattle.moves.specs.NamesLongerThanSixteenBytes.{line_stands};
ghost use Rattle.moves.specs.Laws.Digits.{zero_digit};
ghost use Rattle.mover.specs.Checked.{CheckedSo};

use crate::form::{Room, ZERO_DIGIT, digits_up_to, name_size};
use rules::Refusal;
use stored::line_accepted;

// Digits of the zeros at a row's end.
const END_DIGITS: usize = 8;

fn zeros(part: &[u8]) -> bool
    ensures { result ≡ all (eqb zero_digit) part.now }
{
    part.iter().all(|digit| ZERO_DIGIT == *digit)
}

// Digits and a newline, a name that has room, zeros after it, and zeros at the row's end.
fn line_stands(line: &[u8], room: Room) -> bool
    ensures { result ≡ line_stands room.bytes line.now }
{
    if !line_accepted(line, room.bytes) {
        return false;
    }
    let size = name_size(line);
    if size < 1 {
        return false;
    }
    if size > room.bytes {
        return false;
    }
    let name_end = digits_up_to(size);
    let room_end = digits_up_to(room.bytes);
    if !zeros(&line[name_end..room_end]) {
        return false;
    }
    let end = line.len() - 1;
    let last = end - END_DIGITS;
    zeros(&line[last..end])
}

// How many lines there are, all of which may be moved; or why the first that may not is refused.
pub fn lines_check(source: &[u8], from: Room, to: Room) -> Result<usize, Refusal>
    ensures { CheckedSo from.bytes to.bytes source.now result }
{
    let size = from.line_size();
    for (count, line) in source.chunks(size).enumerate() {
        if !line_stands(line, from) {
            return Err(Refusal::NoStoredRow(count));
        }
        if name_size(line) > to.bytes {
            return Err(Refusal::NameTooLong(count));
        }
    }
    Ok(source.len() / size)
}
