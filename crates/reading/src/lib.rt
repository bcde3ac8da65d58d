// One part from a place, a text's total, and the shift total, under a card that has been checked.
#![tactic(auto)]

pub mod checked;
pub mod part;
pub mod ready;
pub mod shift;
pub mod start;
pub mod total;
pub mod typed;
