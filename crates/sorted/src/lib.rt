// The index beside a unit table: checked, made, and changed with a row.
#![tactic(auto)]

pub mod allowed;
pub mod checked;
pub mod made;
pub mod replaced;
pub mod rising;
pub mod true_order;
