// Rows of the unit table and their fields; in specs/ what lookup by name finds.
#![tactic(auto)]

pub mod fields;
