// ISO timings: reads the stored texts and prints number, position and length of each, and how often each number came; then writes lengths,
// reads each again, prints it, and tries the edges of a buffer; then repeats one text, if there is one behind the list.
#![tactic(auto)]

mod made_lengths;
mod reads;
mod rounds;
mod writes;

use reads::read_all;
use rounds::repeat_one;
use writes::write_all;

fn main() {
    read_all();
    write_all();
    repeat_one();
}
