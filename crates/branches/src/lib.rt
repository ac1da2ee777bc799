// The branches of the search over partial row orders: definitions and theorems, and how columns stand before any row is placed. The code
// that searches stands above.
#![tactic(auto)]

pub mod first_places;
