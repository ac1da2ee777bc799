// Cell values, and the cells of a grid.
ghost use Rattle.std.specs.Prelude.{◌≡◌, ℕ, ◌≤◌, ◌<◌};
ghost use Rattle.grids.specs.Neighbours.{IsNext, IsPrevious};
ghost use Rattle.grids.specs.Order.{rank, higher, lower};
ghost use Rattle.grids.specs.Grids.{cell};

use permutations::columns::ColumnNumber;
use permutations::rows::RowNumber;
use std::cmp;

// Where a value stands among the values. Every comparison of two cells goes by it.
pub fn rank(value: u8) -> u8
    ensures { result ≡ rank value }
{
    value
}

// Of two values, the one that ranks higher.
pub fn higher(a: u8, b: u8) -> u8
    ensures { result ≡ higher a b }
{
    cmp::max_by_key(a, b, |value| rank(*value))
}

// Of two values, the one that ranks lower.
pub fn lower(a: u8, b: u8) -> u8
    ensures { result ≡ lower a b }
{
    cmp::min_by_key(a, b, |value| rank(*value))
}

// The value that ranks next above a value, where one of 0 to 15 does.
pub fn next(value: u8) -> u8
    requires { (v : ℕ) × (v ≤ 15) × (rank value < rank v) }
    ensures { (top v : ℕ) → v ≤ top → rank value < rank v → IsNext top value result }
{
    value + 1
}

// The value that ranks next below a value, where one does.
pub fn previous(value: u8) -> u8
    requires { (v : ℕ) × (rank v < rank value) }
    ensures { (top : ℕ) → value ≤ top → IsPrevious top value result }
{
    value - 1
}

// The cell in a row and a column; 0 past the end.
pub fn cell(grid: &[u8], n: usize, row: RowNumber, column: ColumnNumber) -> u8
    requires { n ≤ 16 }
    ensures { result ≡ cell n grid.now row.0 column.0 }
{
    let at = row.0 as usize * n + column.0 as usize;
    if at < grid.len() { grid[at] } else { 0 }
}
