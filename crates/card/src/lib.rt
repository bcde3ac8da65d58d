// The card: settings and unit table, checked.
#![tactic(auto)]

pub mod row;
pub mod table;
