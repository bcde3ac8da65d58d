// An answer printed as a line: number, position, sign, seconds, nanoseconds.
#![tactic(auto)]

ghost use Rattle.std.specs.Prelude.{◌≡◌, ◌+◌, ◌≤◌, length};
ghost use Rattle.writing.specs.Laid.{laid};
ghost use Rattle.printing.specs.Printed.{printed, printed_next, printed_buffer};
ghost use Rattle.printing.specs.Fields.{figures, signed_figures, line_figures, line_size};

use rules::Answer;
use writing::digits::{Decimal, put, whole};
use writing::writer::sign_byte;

pub const NEWLINE: u8 = b'\n';

const SPACE: u8 = b' ';

// What a line is printed from: the digits of its numbers, which were counted for the room that they take, and the sign.
#[derive(Clone, Copy)]
struct Line {
    number: Decimal,
    position: Decimal,
    sign: u8,
    seconds: Decimal,
    nanoseconds: Decimal,
}

// Digits, and a byte behind them; the place behind that is handed back.
fn put_figures(digits: Decimal, behind: u8, buffer: &mut [u8], place: usize) -> usize
    requires { place + (digits.count + 1) ≤ length buffer.old }
    ensures value { result ≡ place + (digits.count + 1) }
    ensures buffer_after { buffer.new ≡ laid buffer.old place (figures digits behind) }
{
    put(digits, buffer, place);
    let last = place + digits.count;
    buffer[last] = behind;
    last + 1
}

// A sign and a space before them.
fn put_signed(sign: u8, digits: Decimal, behind: u8, buffer: &mut [u8], place: usize) -> usize
    requires { place + (digits.count + 3) ≤ length buffer.old }
    ensures value { result ≡ place + (digits.count + 3) }
    ensures buffer_after { buffer.new ≡ laid buffer.old place (signed_figures sign digits behind) }
{
    buffer[place] = sign;
    let between = place + 1;
    buffer[between] = SPACE;
    put_figures(digits, behind, buffer, between + 1)
}

impl Line {
    fn of(answer: Answer) -> Line
        ensures digits { line_figures result ≡ printed answer }
        ensures few { line_size result ≤ 86 }
    {
        Line {
            number: whole(answer.number as u64),
            position: whole(answer.position as u64),
            sign: sign_byte(answer.length.negative),
            seconds: whole(answer.length.seconds),
            nanoseconds: whole(answer.length.nanoseconds as u64),
        }
    }

    fn size(&self) -> usize
        requires { line_size self.now ≤ 86 }
        ensures { result ≡ line_size self.now }
    {
        self.number.count + self.position.count + self.seconds.count + self.nanoseconds.count + 6
    }

    // Its room has been tested.
    fn put(&self, buffer: &mut [u8], place: usize) -> usize
        requires { place + line_size self.now ≤ length buffer.old }
        ensures value { result ≡ place + line_size self.now }
        ensures buffer_after { buffer.new ≡ laid buffer.old place (line_figures self.now) }
    {
        let second = put_figures(self.number, SPACE, buffer, place);
        let third = put_figures(self.position, SPACE, buffer, second);
        let last = put_signed(self.sign, self.seconds, SPACE, buffer, third);
        put_figures(self.nanoseconds, NEWLINE, buffer, last)
    }
}

// The answer's line, if the buffer has room for it at the place: the place behind it is handed back. Else nothing is put, and the
// place itself is handed back.
pub fn put_answer(answer: Answer, buffer: &mut [u8], place: usize) -> usize
    ensures value { result ≡ printed_next answer buffer.old place }
    ensures buffer_after { buffer.new ≡ printed_buffer answer buffer.old place }
{
    if place > buffer.len() {
        return place;
    }
    let line = Line::of(answer);
    if line.size() > buffer.len() - place {
        return place;
    }
    line.put(buffer, place)
}
