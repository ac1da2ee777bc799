// The writing of an arrangement.
ghost use Rattle.std.specs.Prelude.{◌≡◌, ◌*◌, ◌≤◌, length};
ghost use Rattle.permutations.specs.Rows.{row_numbers};
ghost use Rattle.permutations.specs.Columns.{column_numbers};
ghost use Rattle.grids.specs.Grids.{arrangement};

use crate::cells;
use permutations::columns::{ColumnNumber, ColumnPermutation};
use permutations::rows::RowPermutation;

// Writes the arrangement of a grid by a row order and a column order into a slice of its length. The columns are not read by `number`,
// as in the comparison of two rows.
pub fn write_arrangement(
    grid: &[u8],
    m: usize,
    n: usize,
    rows: RowPermutation,
    columns: ColumnPermutation,
    out: &mut [u8],
)
    requires { (m ≤ 8) × (n ≤ 16) × (length out.old ≡ m * n) }
    ensures { out.new ≡ arrangement m n (row_numbers rows) (column_numbers columns) grid.now }
{
    for i in 0..m {
        let row = rows.number(i);
        for j in 0..n {
            out[i * n + j] = cells::cell(grid, n, row, ColumnNumber(columns.at[j]));
        }
    }
}
