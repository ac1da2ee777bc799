// The search for the least arrangement of a grid of at most five rows. The first row of that arrangement is the least of all rows with
// their cells sorted. How often each value stands in a row tells which rows can be first, before any is sorted.
ghost use Rattle.std.specs.Prelude.{◌≡◌, ◌*◌, ◌≤◌, ◌<◌, length};
ghost use Rattle.permutations.specs.Rows.{row_numbers};
ghost use Rattle.grids.specs.Grids.{row};
ghost use Rattle.general_search.specs.Counts.{weight, counts, CountsRows, FirstGreatest, MarksLess};
ghost use Rattle.general_search.specs.Search.{IsSearching, IsBound, LeastOrders};

use crate::candidates;
use crate::state::{Bound, Branch, Search};
use grids::{cells, comparisons};
use permutations::columns::{ColumnNumber, ColumnPermutation};
use permutations::orders::Orders;
use permutations::rows::{RowNumber, RowPermutation};

// What a cell adds to the counts of its row: a power of 16 by its rank, and nothing from rank 15 on.
fn weight(value: u8) -> u64
    ensures { result ≡ weight value }
{
    let rank = cells::rank(value);
    if rank < 15 {
        1u64 << (56 - 4 * rank)
    } else {
        0
    }
}

// How often each value stands in a row, as one number: the row with the greater number has the lesser sorted row.
fn counts(grid: &[u8], n: usize, i: RowNumber) -> u64
    requires { n ≤ 16 }
    ensures { result ≡ counts (row n grid.now i.0) }
{
    let mut sum = 0;
    for j in 0..n {
        sum += weight(cells::cell(grid, n, i, ColumnNumber(j as u8)));
    }
    sum
}

// The counts of the first m rows of an order.
fn all_counts(grid: &[u8], m: usize, n: usize, rows: RowPermutation) -> [u64; 5]
    requires { (m ≤ 5) × (n ≤ 16) }
    ensures { CountsRows m n grid.now (row_numbers rows) result }
{
    let mut out = [0; 5];
    for t in 0..m {
        out[t] = counts(grid, n, rows.number(t));
    }
    out
}

// The first position with the greatest counts.
fn first_greatest(all: &[u64]) -> usize
    requires { 0 < length all.now }
    ensures { FirstGreatest (length all.now) all.now result }
{
    let mut first = 0;
    for t in 1..all.len() {
        if all[first] < all[t] {
            first = t;
        }
    }
    first
}

// Whether it pays to look ahead: not with four rows or fewer, nor where all rows have the same counts, unless some of them equal the
// first and others do not.
fn looks_ahead(grid: &[u8], m: usize, n: usize, columns: ColumnPermutation, all: [u64; 5]) -> bool
    requires { n ≤ 16 }
{
    if m <= 4 {
        return false;
    }
    if all.iter().any(|count| *count != all[0]) {
        return true;
    }
    let equal = (1..5)
        .filter(|t| {
            let row = RowNumber(*t);
            let found = comparisons::compare_rows(grid, n, RowNumber(0), columns, row, columns);
            found.is_eq()
        })
        .count();
    0 < equal && equal < 4
}

// The positions with lesser counts than position `first`.
fn marked(all: [u64; 5], first: usize) -> [bool; 8]
    requires { first < 5 }
    ensures { MarksLess all first result }
{
    let mut above = [false; 8];
    for (t, count) in all.iter().enumerate() {
        above[t] = *count < all[first];
    }
    above
}

// The bound to begin with, by the counts of the rows: the first row with the greatest counts is placed first, and comes before the
// rows with lesser counts.
fn first_bound(search: &Search, root: &Branch, all: [u64; 5]) -> Bound
    requires { IsSearching search.now root.now root.now.placed × (root.now.k ≡ 0) × (0 < search.now.m) × (search.now.m ≤ 5) × CountsRows search.now.m search.now.n search.now.grid.now (row_numbers root.now.placed.rows) all }
    ensures { IsBound search.now root.now root.now.placed result }
{
    let first = first_greatest(&all[..search.m]);
    let next = search.candidate(root, first);
    let found = candidates::compare_at(search.grid, search.n, 0, next, root.placed);
    Bound {
        best: candidates::lesser(found, next, root.placed),
        from: first,
        above: marked(all, first),
        made: found.is_lt(),
    }
}

// The orders of the least arrangement.
pub fn least_orders(grid: &[u8], m: usize, n: usize) -> Orders<8>
    requires { (m ≤ 5) × (n ≤ 16) × (length grid.now ≡ m * n) }
    ensures { LeastOrders m n grid.now result }
{
    let root = Branch::root(m, n);
    if m == 0 {
        return root.placed;
    }
    let all = all_counts(grid, m, n, root.placed.rows);
    let search = Search {
        grid,
        m,
        n,
        ahead: looks_ahead(grid, m, n, root.placed.columns, all),
    };
    let low = first_bound(&search, &root, all);
    search.place(&root, low, true).best
}
