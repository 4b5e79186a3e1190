// Lists on arrays and sets as bits.
#![tactic(auto)]

pub mod bits;
pub mod chains;
pub mod pairs;
