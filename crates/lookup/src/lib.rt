// Lookup of a name: row by row, or through an index; and over both unit tables.
#![tactic(auto)]

pub mod both_tables;
pub mod names;
pub mod rows_in_order;
pub mod through_index;
