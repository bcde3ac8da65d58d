// The writer: one length at a place of a lent buffer.
#![tactic(auto)]

pub mod digits;
pub mod writer;
