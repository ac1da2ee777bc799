// Question 5's scan of the lines of entries, many bytes at a time.
#![tactic(auto)]

pub mod entries;
mod holdings;
mod laid;
mod order;
mod tables;
