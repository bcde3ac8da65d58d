// The settings: their fields, byte sets, and the check of delimiters, conjunctions and default kind.
#![tactic(auto)]

pub mod check;
pub mod fields;
pub mod sets;
