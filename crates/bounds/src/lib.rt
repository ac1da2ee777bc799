// Bounds on the cells of a grid, document 01's form: a slice of lows and a slice of highs.
#![tactic(auto)]

pub mod asking;
pub mod counted;
mod lows;
mod order;
pub mod prune;
mod rows;
mod sorting;
mod values;
