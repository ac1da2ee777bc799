// The search for the least arrangement. It goes over partial row orders: one row is placed after another, and the columns are
// kept sorted by the rows placed. At each place it follows every row that gives the least next row.
ghost use Rattle.std.specs.Prelude.{◌≡◌, ◌+◌, ◌*◌, ◌≤◌, ◌<◌, length};
ghost use Rattle.permutations.specs.Rows.{row_numbers};
ghost use Rattle.general_search.specs.Search.{IsSearching, IsCandidate, IsBound, Settled, IsSearched, IsOutcome, IsFollowed, FollowedTo, IsRoot, LeastOrders};

pub use crate::candidates::{compare_at, lesser};
use crate::state::{Bound, Branch, Found, Search};
use crate::{blocks, candidates};
use grids::comparisons;
use permutations::orders::Orders;

impl Branch {
    // The branch with no row placed, of a grid of m rows and n columns.
    pub fn root(m: usize, n: usize) -> Branch
        ensures { IsRoot m n result }
    {
        Branch {
            k: 0,
            placed: Orders::identity(m, n),
            breaks: [false; 16],
        }
    }
}

impl Search<'_> {
    // The best of the branch in which at most one row is not placed, and of what was the best before.
    fn last(&self, branch: &Branch, best: Orders<8>, jumps: bool) -> Found
        requires { IsSearching self.now branch.now best × (self.now.m ≤ branch.now.k + 1) }
        ensures { IsSearched self.now branch.now best result.best × IsOutcome self.now branch.now best jumps result }
    {
        let k = branch.k;
        if k == self.m {
            return Found { best, back: None };
        }
        let next = self.candidate(branch, k);
        let found = candidates::compare_at(self.grid, self.n, k, next, best);
        let out = candidates::lesser(found, next, best);
        let back = if jumps && found.is_eq() {
            next.rows.parting(&out.rows, self.m)
        } else {
            None
        };
        Found { best: out, back }
    }

    // Whether the branch of the row at position t is settled by what its search found: it was searched, or it is a copy of the branch
    // of the best's row, which is at a position before t.
    fn settled(&self, branch: &Branch, t: usize, found: Found) -> bool
        requires { branch.now.k < self.now.m }
        ensures { Settled self.now.m (row_numbers branch.now.placed.rows) branch.now.k t found result }
    {
        let k = branch.k;
        let row = found.best.rows.number(k);
        !found.goes_back(k + 1) || (k..t).any(|s| branch.placed.rows.number(s) == row)
    }

    // Follows the candidate with the row at position t: the best of its branch, and of what was the best before. A candidate whose next
    // row is above the best's is cut. Where no more than one row is left then, it is placed at once. A branch that is not settled is
    // searched again, without jumps and with a bound of which nothing is known.
    #[cycle(follow_place)]
    fn follow(
        &self,
        branch: &Branch,
        t: usize,
        next: Orders<8>,
        best: Orders<8>,
        jumps: bool,
    ) -> Found
        requires { IsSearching self.now branch.now best × (branch.now.k ≤ t) × (t < self.now.m) × FollowedTo self.now branch.now t best best × IsCandidate self.now branch.now t next }
        ensures { IsFollowed self.now branch.now t best jumps result }
    {
        let k = branch.k;
        let found = candidates::compare_at(self.grid, self.n, k, next, best);
        if found.is_gt() {
            return Found { best, back: None };
        }
        let out = candidates::lesser(found, next, best);
        let further = Branch {
            k: k + 1,
            placed: next,
            breaks: blocks::split(self.grid, self.n, next.rows, k, next.columns, branch.breaks),
        };
        if self.m <= k + 2 {
            return self.last(&further, out, jumps);
        }
        let low = self.bounded(&further, out);
        let deeper = self.place(&further, low, jumps);
        if deeper.goes_back(k) || self.settled(branch, t, deeper) {
            return deeper;
        }
        self.place(&further, Bound::unknown(deeper.best, k + 1), false)
    }

    // The best of the branch, and of the bound's best. The candidates that the bound's best comes before are skipped. Where an
    // arrangement equals the best one, the two row orders show a symmetry of the grid, and the search goes back to where they part.
    #[cycle(follow_place)]
    pub fn place(&self, branch: &Branch, low: Bound, jumps: bool) -> Found
        requires { IsSearching self.now branch.now low.best × IsBound self.now branch.now low.best low }
        ensures { IsOutcome self.now branch.now low.best jumps result }
    {
        let above = low.above;
        let lowest = low.best;
        let mut found = Found {
            best: lowest,
            back: None,
        };
        let mut made = low.made;
        for t in low.from..self.m {
            if !above[t] && !self.repeated(branch, t) {
                let next = if made {
                    lowest
                } else {
                    self.candidate(branch, t)
                };
                found = self.follow(branch, t, next, found.best, jumps);
                if found.goes_back(branch.k) {
                    return found;
                }
            }
            made = false;
        }
        found
    }
}

// The orders of the least arrangement.
pub fn least_orders(grid: &[u8], m: usize, n: usize) -> Orders<8>
    requires { (m ≤ 8) × (n ≤ 16) × (length grid.now ≡ m * n) }
    ensures { LeastOrders m n grid.now result }
{
    let search = Search {
        grid,
        m,
        n,
        ahead: 4 < m,
    };
    let root = Branch::root(m, n);
    // not by `bounded`: with a second caller it is no longer compiled into `follow`, which costs small grids up to 3 percent
    let low = if search.ahead {
        search.lowered(&root, root.placed)
    } else {
        Bound::unknown(root.placed, 0)
    };
    search.place(&root, low, true).best
}
