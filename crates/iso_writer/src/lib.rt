// The writer of ISO timings: one length at a place of a lent buffer.
#![tactic(auto)]

mod part;
pub mod writer;
