// What a program of the test counts.
use crate::printed::print_number;
use crate::streams::STDOUT;

// More of anything than a list has.
pub const MOST: u64 = 1_000_000_000_000;

// An answer's number is 0 to 23.
pub const NUMBERS: usize = 24;

// What a program counts: answers by their number, what differs, the entries of its list and the cards.
#[derive(Drop)]
pub struct Counts {
    answers: [u64; NUMBERS],
    pub differ: u64,
    pub entries: u64,
    pub cards: u64,
}

// One more, up to the largest number.
pub fn count(counted: &mut u64) {
    *counted = counted.saturating_add(1);
}

impl Counts {
    // Nothing counted yet.
    pub fn new() -> Self {
        Counts {
            answers: [0; NUMBERS],
            differ: 0,
            entries: 0,
            cards: 0,
        }
    }

    // One answer more of a number, and one difference more unless all agrees. A number that no list has is a difference, and nothing else.
    pub fn count_answer(&mut self, number: u8, agrees: bool) {
        let listed = self.answers.get_mut(number as usize);
        if let Some(answers) = listed {
            count(answers);
            if agrees {
                return;
            }
        }
        count(&mut self.differ);
    }

    // How many answers there were of each number, a line for each: of the numbers below an end in any case, of the others where there were any.
    pub fn print_answers(&self, name: &[u8], end: usize) {
        for (number, count) in self.answers.iter().enumerate() {
            if number < end || *count > 0 {
                print_number(number as u64, name);
                print_number(*count, b"\n");
            }
        }
    }
}

pub fn print_count(name: &[u8], count: u64) {
    io::write_all(STDOUT, name);
    print_number(count, b"\n");
}
