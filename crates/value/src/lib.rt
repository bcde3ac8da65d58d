// From digits to a length: digit runs, the number moved by its power of ten, and evaluation.
#![tactic(auto)]

pub mod digits;
pub mod evaluation;
pub mod number;
