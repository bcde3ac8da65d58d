// What the programs of the test share to read their stored lists: lines, the fields of a line, cards and texts; how they print an
// answer; what they count, and their check sums; and a buffer of which the edges are tried.
#![tactic(auto)]

pub mod cards;
pub mod counts;
pub mod edges;
pub mod fields;
pub mod lines;
pub mod often;
pub mod printed;
pub mod streams;
pub mod sums;
pub mod texts;
