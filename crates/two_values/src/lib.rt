// The least arrangement of a grid with two values: a row's place among those that can come next is a number.
#![tactic(auto)]

pub mod arranging;
mod columns;
mod contests;
mod domination;
mod nodes;
mod pairs;
mod search;
mod settled;
mod symmetries;
mod tables;
mod words;
