// Comparisons: of two columns, of two rows, of two grids. The first unequal cell decides, by rank.
ghost use Rattle.std.specs.Prelude.{◌≡◌, ◌-◌, ◌≤◌};
ghost use Rattle.permutations.specs.Rows.{row_numbers};
ghost use Rattle.permutations.specs.Columns.{column_numbers};
ghost use Rattle.grids.specs.Sorted.{part_of_column};
ghost use Rattle.grids.specs.Grids.{cell, permuted_row};
ghost use Rattle.grids.specs.Comparisons.{compared, compared_cells, ComparesGrids};

use crate::cells;
use permutations::columns::{ColumnNumber, ColumnPermutation};
use permutations::rows::{RowNumber, RowPermutation};
use std::cmp::Ordering;

// What comparing two grids finds, and how many leading cells agree: all of them if they are equal.
#[derive(Clone, Copy)]
pub struct GridComparison {
    pub found: Ordering,
    pub agreed: usize,
}

// Two values, by rank.
fn compare_values(a: u8, b: u8) -> Ordering
    ensures { result ≡ compared_cells a b }
{
    cells::rank(a).cmp(&cells::rank(b))
}

// The cells of columns a and b in one row.
pub fn compare_cells(
    grid: &[u8],
    n: usize,
    row: RowNumber,
    a: ColumnNumber,
    b: ColumnNumber,
) -> Ordering
    requires { n ≤ 16 }
    ensures { result ≡ compared_cells (cell n grid.now row.0 a.0) (cell n grid.now row.0 b.0) }
{
    let x = cells::rank(cells::cell(grid, n, row, a));
    let y = cells::rank(cells::cell(grid, n, row, b));
    x.cmp(&y)
}

// The cells of columns a and b in the rows from..to of a row order, from the top down.
pub fn compare_columns(
    grid: &[u8],
    n: usize,
    rows: RowPermutation,
    from: usize,
    to: usize,
    a: ColumnNumber,
    b: ColumnNumber,
) -> Ordering
    requires { n ≤ 16 }
    ensures { result ≡ compared (part_of_column n grid.now (row_numbers rows) from (to - from) a.0) (part_of_column n grid.now (row_numbers rows) from (to - from) b.0) }
{
    for i in from..to {
        let found = compare_cells(grid, n, rows.number(i), a, b);
        if found.is_ne() {
            return found;
        }
    }
    Ordering::Equal
}

// Two rows of a grid, each with its cells in a column order of its own, from the left. The columns are not read by `number`, whose test
// costs the general search 3 to 5 percent.
pub fn compare_rows(
    grid: &[u8],
    n: usize,
    a: RowNumber,
    p: ColumnPermutation,
    b: RowNumber,
    q: ColumnPermutation,
) -> Ordering
    requires { n ≤ 16 }
    ensures { result ≡ compared (permuted_row n grid.now a.0 (column_numbers p)) (permuted_row n grid.now b.0 (column_numbers q)) }
{
    for j in 0..n {
        let x = cells::cell(grid, n, a, ColumnNumber(p.at[j]));
        let y = cells::cell(grid, n, b, ColumnNumber(q.at[j]));
        let found = compare_values(x, y);
        if found.is_ne() {
            return found;
        }
    }
    Ordering::Equal
}

// Two grids, row after row, in one pass; a grid comes before those that it begins.
pub fn compare_grids(a: &[u8], b: &[u8]) -> GridComparison
    ensures { ComparesGrids a.now b.now result }
{
    let shared = a.len().min(b.len());
    for i in 0..shared {
        let found = compare_values(a[i], b[i]);
        if found.is_ne() {
            return GridComparison { found, agreed: i };
        }
    }
    GridComparison {
        found: a.len().cmp(&b.len()),
        agreed: shared,
    }
}
