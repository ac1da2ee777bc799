// The canonical form of a grid: its least arrangement. The calls represent and same, for the order system and for a terminal.
#![tactic(auto)]

pub mod answers;
mod asking;
pub mod callers;
mod comparing;
mod orders;
pub mod represent;
pub mod same;
