// How many entries of a register lie within bounds.
#![tactic(auto)]

mod tables;
pub mod within;
