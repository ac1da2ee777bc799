// Permutations of rows, of a terminal's rows and of columns: document 01's orders. Row numbers and column numbers are types of
// their own, and one generic type holds a permutation of either.
#![tactic(auto)]

pub mod columns;
pub mod orders;
pub mod permutation;
pub mod rows;
