// Grids: the order of cell values, cells, comparisons, and the writing of an arrangement; the questions that the calls share.
// A grid of m rows and n columns is a slice of m * n cells, row after row.
#![tactic(auto)]

pub mod arrangements;
pub mod cells;
pub mod comparisons;
pub mod questions;
pub mod values;
