// The call represent.
ghost use Rattle.std.specs.Prelude.{IfOk};
ghost use Rattle.grids.specs.Questions.{first_no};
ghost use Rattle.canonical.specs.Answers.{represented, IsSized};
ghost use Rattle.canonical.specs.Represent.{RepresentedBy, represent_questions};

use crate::callers::Caller;
use crate::{asking, orders};
use grids::arrangements;
use permutations::orders::Orders;
use refusals::Refusal;

// Writes the least arrangement of the grid, and returns the orders that produce it. Where a question gets a no, the output slice is as
// it was.
pub fn represent<C: Caller<N>, const N: usize>(
    m: usize,
    n: usize,
    top: usize,
    grid: &[u8],
    out: &mut [u8],
) -> Result<Orders<N>, Refusal>
    ensures answer { RepresentedBy N (first_no (C.questions m (represent_questions m n top grid.now out.old))) m n grid.now out.old (represented result out.new) }
    ensures sizes { IfOk result (IsSized m n) }
{
    asking::ask_represent::<C, N>(m, n, top, grid, out)?;
    let least = orders::least_orders::<C, N>(grid, m, n);
    arrangements::write_arrangement(grid, m, n, least.rows, least.columns, out);
    Ok(least.narrowed())
}
