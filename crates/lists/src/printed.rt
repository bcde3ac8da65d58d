// Answers and numbers, printed. The functions of `io` are called and not `print!`, which would pass the runtime through every function on the
// way and be no shorter.
use crate::lines::first_bytes;
use crate::streams::STDOUT;
use printing::put_answer;
use rules::Answer;

// Bytes that a printed answer has at most.
const LONGEST_LINE: usize = 86;

// A line for the answer: number, position, sign, seconds, nanoseconds.
pub fn print_answer(answer: Answer) {
    let mut line = [0u8; LONGEST_LINE];
    let printed = put_answer(answer, &mut line, 0);
    io::write_all(STDOUT, first_bytes(&line, printed));
}

// A number, and what stands behind it.
pub fn print_number(number: u64, behind: &[u8]) {
    io::print_decimal(STDOUT, number);
    io::write_all(STDOUT, behind);
}

// Number and position of an answer, and what stands behind them.
pub fn print_place(answer: Answer, behind: &[u8]) {
    print_number(u64::from(answer.number), b" ");
    print_number(answer.position as u64, behind);
}
