// What is done so often to count its instructions.
use rules::{Answer, Length};

// No answer yet.
const BEFORE: Answer = Answer {
    number: 0,
    position: 0,
    length: Length {
        negative: false,
        seconds: 0,
        nanoseconds: 0,
    },
};

// An answer got so often, and at least once. The number of an answer is below 200, so what is passed is always 0; but it is the answer before
// that says so, and none can be left out. It is asked for in one place, so that what asks is compiled into the loop.
pub fn often<F: FnMut(usize) -> Answer>(rounds: u32, mut ask: F) -> Answer
    requires { F.IsAlwaysCallable ask }
{
    let mut answer = BEFORE;
    for _ in 0..rounds.max(1) {
        answer = ask((answer.number / 200) as usize);
    }
    answer
}
