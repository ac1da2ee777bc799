// Question 5: line 1, the lines of the entries and the blank lines of a register.
#![tactic(auto)]

mod blanks;
pub mod question5;
