// The numbers and lines of a register, read, written and moved; tables for its cells.
#![tactic(auto)]

pub mod bytes;
pub mod entries;
pub mod head;
pub mod holdings;
pub mod numbers;
pub mod tables;
