// The orders of the least arrangement: a grid with two values has a search of its own.
ghost use Rattle.std.specs.Prelude.{◌≡◌, ◌*◌, ◌≤◌, length};
ghost use Rattle.general_search.specs.Search.{LeastOrders};

use crate::callers::Caller;
use permutations::orders::Orders;
use two_values::arranging;

pub fn least_orders<C: Caller<N>, const N: usize>(grid: &[u8], m: usize, n: usize) -> Orders<8>
    requires { (m ≤ N) × (n ≤ 16) × (length grid.now ≡ m * n) }
    ensures { LeastOrders m n grid.now result }
{
    if arranging::is_left(grid, n) {
        return C::search(grid, m, n);
    }
    match arranging::least_arrangement(grid, m, n) {
        Some(orders) => orders,
        None => C::search(grid, m, n),
    }
}
