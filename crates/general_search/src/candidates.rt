// The candidates of a branch: each places one row more, and sorts the columns by it.
ghost use Rattle.std.specs.Prelude.{◌≡◌, ◌≤◌, ◌<◌, ◌↔◌, IsTrue};
ghost use Rattle.permutations.specs.Rows.{row_numbers};
ghost use Rattle.grids.specs.Grids.{row};
ghost use Rattle.grids.specs.Comparisons.{compared};
ghost use Rattle.permutations.specs.declared.orders.Orders.{Orders};
ghost use Rattle.general_search.specs.Search.{row_at, lesser_orders, Repeats, IsSearching, IsCandidate, IsBound};

use crate::blocks;
use crate::state::{Bound, Branch, Search};
use grids::{cells, comparisons};
use permutations::columns::ColumnNumber;
use permutations::orders::Orders;
use permutations::rows::RowNumber;
use std::cmp::Ordering;

// Row k of the arrangements by two pairs of orders.
pub fn compare_at(grid: &[u8], n: usize, k: usize, a: Orders<8>, b: Orders<8>) -> Ordering
    requires { n ≤ 16 }
    ensures { result ≡ compared (row_at n grid.now k a) (row_at n grid.now k b) }
{
    let x = a.rows.number(k);
    let y = b.rows.number(k);
    comparisons::compare_rows(grid, n, x, a.columns, y, b.columns)
}

// The candidate, if its comparison with the best found it less; else the best.
pub fn lesser(found: Ordering, next: Orders<8>, best: Orders<8>) -> Orders<8>
    ensures { result ≡ lesser_orders found next best }
{
    if found.is_lt() { next } else { best }
}

impl Search<'_> {
    // Whether two rows are equal.
    fn equal_rows(&self, a: RowNumber, b: RowNumber) -> bool
        ensures { IsTrue result ↔ row self.now.n self.now.grid.now a.0 ≡ row self.now.n self.now.grid.now b.0 }
    {
        // no `all`: with it grids of few distinct rows are searched in 1.06 of the time
        for j in 0..self.n {
            let column = ColumnNumber(j as u8);
            let x = cells::cell(self.grid, self.n, a, column);
            let y = cells::cell(self.grid, self.n, b, column);
            if x != y {
                return false;
            }
        }
        true
    }

    // Whether the row at position t equals one that can come next before it.
    pub fn repeated(&self, branch: &Branch, t: usize) -> bool
        ensures { Repeats self.now.n self.now.grid.now (row_numbers branch.now.placed.rows) branch.now.k t result }
    {
        let row = branch.placed.rows.number(t);
        // no `any`: with it small grids take up to 2.5 percent more time
        for s in branch.k..t {
            if self.equal_rows(branch.placed.rows.number(s), row) {
                return true;
            }
        }
        false
    }

    // The candidate with the row at position t: the orders with that row placed next, and each block of columns sorted by it.
    pub fn candidate(&self, branch: &Branch, t: usize) -> Orders<8>
        requires searching { (best : Orders 8) × IsSearching self.now branch.now best }
        requires unplaced { (branch.now.k ≤ t) × (t < self.now.m) }
        ensures { IsCandidate self.now branch.now t result }
    {
        let Orders { rows, columns } = branch.placed;
        let columns = blocks::sorted(self.grid, self.n, rows.number(t), columns, branch.breaks);
        // returned here and not as an if's value: rows of 16 cells are then searched in 0.9 of the time
        if t == branch.k {
            return Orders { rows, columns };
        }
        let rows = rows.swapped(branch.k, t);
        Orders { rows, columns }
    }

    // The least of the best and of all candidates, by their first k + 1 rows, and which candidates it comes before.
    pub fn lowered(&self, branch: &Branch, best: Orders<8>) -> Bound
        requires { IsSearching self.now branch.now best }
        ensures { IsBound self.now branch.now best result }
    {
        let mut low = Bound::unknown(best, branch.k);
        for t in branch.k..self.m {
            let next = self.candidate(branch, t);
            let found = compare_at(self.grid, self.n, branch.k, next, low.best);
            if found.is_gt() {
                low.above[t] = true;
            } else if found.is_lt() {
                low.best = next;
                low.from = t;
                low.made = true;
            }
        }
        low
    }

    // The bound to begin with. If the best begins with the rows placed and the next one, no other row was tried there, and it is lowered,
    // where the search is to look ahead and more than two rows are left.
    pub fn bounded(&self, branch: &Branch, best: Orders<8>) -> Bound
        requires { IsSearching self.now branch.now best }
        ensures { IsBound self.now branch.now best result }
    {
        let k = branch.k;
        if self.ahead && k + 2 < self.m && best.rows.parting(&branch.placed.rows, k + 1).is_none() {
            self.lowered(branch, best)
        } else {
            Bound::unknown(best, k)
        }
    }
}
