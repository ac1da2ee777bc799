// The call same.
ghost use Rattle.std.specs.Prelude.{IfOk, IfSome};
ghost use Rattle.grids.specs.Grids.{one_class};
ghost use Rattle.grids.specs.Questions.{first_no};
ghost use Rattle.canonical.specs.Answers.{matched, IsSized};
ghost use Rattle.canonical.specs.Same.{ComparedBy, same_questions};

use crate::answers::Match;
use crate::callers::Caller;
use crate::{asking, comparing, orders};
use permutations::orders::Orders;
use refusals::Refusal;

// The orders by which b is the arrangement of a, if both are in one class: those that produce a's least arrangement, followed by the
// inverses of those that produce b's. In both cases, how many leading cells of the least arrangements agree.
pub fn same<C: Caller<N>, const N: usize>(
    m: usize,
    n: usize,
    top: usize,
    a: &[u8],
    b: &[u8],
) -> Result<Match<N>, Refusal>
    ensures answer { ComparedBy N (first_no (C.questions m (same_questions m n top a.now b.now))) (one_class m n a.now b.now) m n a.now b.now (matched result) }
    ensures sizes { IfOk result (λ found. IfSome found.orders (IsSized m n)) }
{
    asking::ask_same::<C, N>(m, n, top, a, b)?;
    let p = orders::least_orders::<C, N>(a, m, n);
    let q = orders::least_orders::<C, N>(b, m, n);
    let compared = comparing::compare_arrangements(a, b, m, n, p, q);
    let agreed = compared.agreed as u32;
    let orders = if compared.found.is_eq() {
        let p: Orders<N> = p.narrowed();
        let q: Orders<N> = q.narrowed();
        Some(p.composed(q.inverse()))
    } else {
        None
    };
    Ok(Match { agreed, orders })
}
