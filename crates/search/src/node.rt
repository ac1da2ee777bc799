// A node of the search.
ghost use Rattle.std.specs.Prelude.{◌≡◌, ℕ, ◌-◌, ◌<◌, ◌≤◌, true, false, IfSome, slice_index};
ghost use Rattle.permutations.specs.Permutations.{swapped};
ghost use Rattle.branches.specs.SortedRows.{After, Places, Refined};
ghost use Rattle.search.specs.ColumnLists.{Lists};
ghost use Rattle.search.specs.Tables.{entry, is_two};
ghost use Rattle.search.specs.Search.{rows_of, IsNode, Leaves, GivesNext, Deeper};

use crate::columns::{ColumnList, ColumnPlaces};
use crate::row_sets::RowSet;
use crate::tables::GridTables;
use crate::{keys, sifting};
use permutations::rows::RowNumber;

// The first `placed` rows of the order are placed, and `rest` are the others; `after` holds how many columns come after each. What is
// searched is less than the best in the rows placed, or there is no best yet, where `fresh` says so; else it equals the best there. There is always some order, so the best is no `Option`.
#[derive(Clone, Copy)]
pub struct Node {
    pub rows: [RowNumber; 8],
    pub after: ColumnPlaces,
    pub rest: RowSet,
    pub placed: usize,
    pub fresh: bool,
}

// How many columns come after each with one row more placed.
#[derive(Clone, Copy)]
pub struct Refinement {
    pub row: RowNumber,
    pub after: ColumnPlaces,
}

// The rows that give the least next row, and its key; and the refinement by one of the rows, where it was made for the key. The key is 0
// where the node is fresh in a grid of more than two values: nothing is asked of it there, and an option would make each reader ask.
#[derive(Clone, Copy)]
pub struct Candidates {
    pub rows: RowSet,
    pub key: u64,
    pub made: Option<Refinement>,
}

// The rows with the least key, in a grid of two values.
fn by_keys(tables: &GridTables, node: Node) -> Candidates
    requires { IsNode tables.now node × (is_two tables.now.low ≡ true) }
    ensures { GivesNext tables.now node result }
{
    let keys = keys::row_keys(&tables.bits, &node.after);
    let least = keys::lowest(&keys, node.rows, tables.m, node.placed);
    Candidates {
        rows: keys::with_key(&keys, node.rows, tables.m, node.placed, least),
        key: u64::from(least),
        made: None,
    }
}

// The columns by how many come after each.
fn columns_at(n: usize, placed: usize, places: &ColumnPlaces) -> ColumnList
    requires { (n ≤ 16) × After n places.now.counts × (placed ≡ 0 → (c : ℕ) → c < n → slice_index places.now.counts c ≡ 16 - n) }
    ensures { Lists n places.now.counts result.0 }
{
    if placed == 0 {
        return ColumnList::own();
    }
    places.listed(n)
}

// The rows that sifting leaves.
fn left(tables: &GridTables, node: Node) -> RowSet
    requires { IsNode tables.now node }
    ensures { Leaves tables.now.m tables.now.n tables.now.grid.now node result.bytes }
{
    if tables.m - node.placed == 1 {
        return node.rest;
    }
    let columns = columns_at(tables.n, node.placed, &node.after);
    sifting::sifted(tables, columns, &node.after, node.rest)
}

// The rows that sifting leaves, in any grid, and the key of the least next row where it is held against the best's.
fn by_sifting(tables: &GridTables, node: Node) -> Candidates
    requires { IsNode tables.now node × (is_two tables.now.low ≡ false) }
    ensures { GivesNext tables.now node result }
{
    let rows = left(tables, node);
    if node.fresh {
        return Candidates {
            rows,
            key: 0,
            made: None,
        };
    }
    let row = rows.first();
    let after = node.after.refined(tables, row);
    let columns = after.listed(tables.n);
    Candidates {
        rows,
        key: keys::digits(tables, row, columns),
        made: Some(Refinement { row, after }),
    }
}

// The rows that give the least next row.
pub fn next_rows(tables: &GridTables, node: Node) -> Candidates
    requires { IsNode tables.now node }
    ensures { GivesNext tables.now node result }
{
    if tables.is_two() {
        by_keys(tables, node)
    } else {
        by_sifting(tables, node)
    }
}

// How many columns come after each with one row more placed.
fn refined_by(
    tables: &GridTables,
    after: &ColumnPlaces,
    next: Candidates,
    row: RowNumber,
) -> ColumnPlaces
    requires { (row.0 < 8) × Places tables.now.n after.now.counts × IfSome next.made (λ made. Refined after.now.counts (entry tables.now.levels made.row.0) made.after.counts) }
    ensures { Refined after.now.counts (entry tables.now.levels row.0) result.counts }
{
    match next.made {
        Some(made) if made.row == row => made.after,
        _ => after.refined(tables, row),
    }
}

// The order with the rows at two positions exchanged.
fn exchanged(rows: [RowNumber; 8], k: usize, t: usize) -> [RowNumber; 8]
    requires { (k < 8) × (t < 8) }
    ensures { rows_of result ≡ swapped (rows_of rows) k t }
{
    let mut out = rows;
    out.swap(k, t);
    out
}

// The node with the row at position t placed too.
pub fn deeper(
    tables: &GridTables,
    node: Node,
    next: Candidates,
    t: usize,
    row: RowNumber,
    fresh: bool,
) -> Node
    requires { IsNode tables.now node × GivesNext tables.now node next × (node.placed ≤ t) × (t < tables.now.m) × (row.0 ≡ slice_index (rows_of node.rows) t) }
    ensures { Deeper tables.now.m tables.now.levels node t fresh result }
{
    Node {
        rows: exchanged(node.rows, node.placed, t),
        after: refined_by(tables, &node.after, next, row),
        rest: node.rest.without(row),
        placed: node.placed + 1,
        fresh,
    }
}
