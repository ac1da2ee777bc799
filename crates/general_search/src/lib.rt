// The search for the least arrangement of any grid, over partial row orders.
#![tactic(auto)]

mod blocks;
mod candidates;
pub mod search;
mod state;
pub mod terminal_search;
