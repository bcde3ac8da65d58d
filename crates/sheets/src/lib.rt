// Sheets: their lines, answered one by one, and what is kept of a line whose end has not been read.
#![tactic(auto)]

pub mod answering;
pub mod keeping;
pub mod lines;
