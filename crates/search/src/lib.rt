// The search for the least arrangement of a grid. It is to take the place of the two searches, and what it does with sets of rows and lists
// of columns in words of 64 bits `two_values` does with arrays.
#![tactic(auto)]

mod columns;
mod domination;
mod found;
mod keys;
mod node;
pub mod orders;
mod pairs;
mod placing;
mod row_sets;
mod settled;
mod sifting;
mod symmetries;
mod tables;
