// The reader of ISO timings.
#![tactic(auto)]

mod components;
mod counted;
pub mod reader;
mod worth;
