// The whole run of planbook on lent bytes: from the bytes of the input to those of the output.
#![tactic(auto)]

mod answers;
mod commands;
mod fields;
mod input;
mod reports;
pub mod run;
mod start;
mod starts;
