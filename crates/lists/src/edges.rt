// A buffer of which the edges are tried, a place beyond it, and what each of its bytes holds before: no byte that is ever written.
use crate::counts::Counts;
use crate::lines::first_bytes;
use rules::Answer;

pub const EDGE: usize = 64;

pub const BEYOND: usize = 65;

pub const BEFORE: u8 = 7;

// Whether a buffer's bytes up to a place are as before.
pub fn untouched(buffer: &[u8], end: usize) -> bool {
    first_bytes(buffer, end).iter().all(|byte| *byte == BEFORE)
}

// A fresh buffer written to, and an answer more, which differs unless answer and buffer are right then.
pub fn try_edge<W: FnOnce(&mut [u8]) -> Answer, R: FnOnce(Answer, &[u8]) -> bool>(
    counts: &mut Counts,
    write: W,
    is_right: R,
)
    requires written { W.IsAlwaysCallable write }
    requires judged { R.IsAlwaysCallable is_right }
{
    let mut buffer = [BEFORE; EDGE];
    let answer = write(&mut buffer);
    counts.count_answer(answer.number, is_right(answer, &buffer));
}
