// Check sums of what is handed back, in which each number counts by its value and by its turn.
use rules::Answer;

// What a sum begins with, so that zeros count too.
pub const BEGIN: u64 = 1;

// A prime that a sum stays below, and by what a sum is multiplied before a number is added.
const BELOW: u64 = 4_294_967_291;

const FACTOR: u64 = 65_599;

pub fn mixed(sum: u64, number: u64) -> u64 {
    (sum % BELOW * FACTOR + number % BELOW) % BELOW
}

pub fn mixed_answer(sum: u64, answer: Answer) -> u64 {
    let length = answer.length;
    let at = mixed(mixed(sum, answer.number as u64), answer.position as u64);
    mixed(mixed(at, length.seconds), length.nanoseconds as u64)
}

pub fn mixed_bytes(sum: u64, bytes: &[u8]) -> u64 {
    bytes
        .iter()
        .fold(sum, |then, byte| mixed(then, u64::from(*byte)))
}
