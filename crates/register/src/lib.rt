// The register's calls on lent bytes: open, enter, strike and count, and a terminal's enter.
#![tactic(auto)]

pub mod answers;
mod asking;
pub mod counts;
pub mod entering;
mod held;
pub mod opening;
mod places;
pub mod striking;
