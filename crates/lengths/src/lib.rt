// Lengths: the product of two words, what a multiplied number comes to, and the sum.
#![tactic(auto)]

pub mod duration;
pub mod wide;
