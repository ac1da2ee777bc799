// Who calls: the order system, whose plans have up to eight rows, or a terminal, whose plans have up to five.
ghost use Rattle.std.specs.Prelude.{◌≡◌, ℕ, List, [], ◌∷◌, ◌*◌, ◌≤◌, length};
ghost use Rattle.refusals.specs.Numbers.{asked_number};
ghost use Rattle.grids.specs.Questions.{Question, first_no, question14, after_first};
ghost use Rattle.general_search.specs.Search.{LeastOrders};
ghost use Rattle.canonical.specs.Callers.{nothing, CallerLaws, order_system_laws, terminal_laws};

use general_search::{search, terminal_search};
use grids::questions;
use permutations::orders::Orders;
use permutations::rows::{RowPermutation, TerminalRowPermutation};
use refusals::Refusal;

// The row orders that a caller gets have N positions.
pub trait Caller<const N: usize> {
    // The question that is asked of so many rows besides those that the order system asks, and all of them in their order.
    ghost besides: { ℕ → Question };

    ghost questions: { ℕ → List Question → List Question };

    // Asks it.
    fn admit(m: usize) -> Result<(), Refusal>
        ensures { asked_number result ≡ first_no (besides m ∷ []) };

    // The orders of the least arrangement, as the general search finds them.
    fn search(grid: &[u8], m: usize, n: usize) -> Orders<8>
        requires { (m ≤ N) × (n ≤ 16) × (length grid.now ≡ m * n) }
        ensures { LeastOrders m n grid.now result };

    ghost laws: { CallerLaws N besides questions };
}

pub struct OrderSystem;

impl Caller<{ RowPermutation::WIDTH }> for OrderSystem {
    ghost besides = { nothing };

    ghost questions = { λ m asked. asked };

    ghost laws = { order_system_laws };

    fn admit(_m: usize) -> Result<(), Refusal> {
        Ok(())
    }

    fn search(grid: &[u8], m: usize, n: usize) -> Orders<8> {
        search::least_orders(grid, m, n)
    }
}

pub struct Terminal;

impl Caller<{ TerminalRowPermutation::WIDTH }> for Terminal {
    ghost besides = { question14 };

    ghost questions = { λ m asked. after_first (question14 m) asked };

    ghost laws = { terminal_laws };

    fn admit(m: usize) -> Result<(), Refusal> {
        if questions::fits_terminal(m) {
            Ok(())
        } else {
            Err(Refusal::TerminalRows)
        }
    }

    fn search(grid: &[u8], m: usize, n: usize) -> Orders<8> {
        terminal_search::least_orders(grid, m, n)
    }
}
