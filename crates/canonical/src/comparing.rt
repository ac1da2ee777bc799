// The comparison of two arrangements, for same.
ghost use Rattle.std.specs.Prelude.{◌≤◌};
ghost use Rattle.grids.specs.Comparisons.{ComparesGrids};
ghost use Rattle.general_search.specs.Search.{leading_rows};

use grids::comparisons::GridComparison;
use grids::{arrangements, comparisons};
use permutations::orders::Orders;

// What comparing the arrangement of a by p with the arrangement of b by q finds.
pub fn compare_arrangements(
    a: &[u8],
    b: &[u8],
    m: usize,
    n: usize,
    p: Orders<8>,
    q: Orders<8>,
) -> GridComparison
    requires { (m ≤ 8) × (n ≤ 16) }
    ensures { ComparesGrids (leading_rows m n a.now p) (leading_rows m n b.now q) result }
{
    let size = m * n;
    let mut x = [0u8; 128];
    let x = &mut x[..size];
    let mut y = [0u8; 128];
    let y = &mut y[..size];
    arrangements::write_arrangement(a, m, n, p.rows, p.columns, x);
    arrangements::write_arrangement(b, m, n, q.rows, q.columns, y);
    comparisons::compare_grids(x, y)
}
