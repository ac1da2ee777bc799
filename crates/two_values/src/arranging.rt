// The least arrangement of a grid with two values.
ghost use Rattle.std.specs.Prelude.{◌≡◌, ◌≤◌, ◌<◌, IfSome};
ghost use Rattle.two_values.specs.Arranged.{ArrangedLeast};

use crate::nodes::Node;
use crate::search::Found;
use crate::symmetries::Kept;
use crate::tables::TwoValuedGrid;
use crate::{columns, search};
use branches::first_places;
use grids::values;
use permutations::orders::Orders;
use permutations::rows::RowPermutation;

// The orders of the least arrangement of a grid with two values: the search begins with no row placed, and the columns are sorted by the
// best row order that it finds.
fn searched(grid: &TwoValuedGrid) -> Orders<8>
    ensures { ArrangedLeast grid.now.m grid.now.n grid.now.cells.now result }
{
    let rows = RowPermutation::identity(grid.m);
    let after = first_places::first_places(grid.n);
    let root = Node {
        k: 0,
        rows,
        after,
        fresh: true,
    };
    let mut found = Found {
        best: rows,
        after,
        keys: [0; 8],
        back: grid.m,
        kept: Kept {
            maps: [[0; 8]; 4],
            count: 0,
        },
    };
    search::place(grid, &root, &mut found);
    Orders {
        rows: found.best,
        columns: columns::sorted(found.after, grid.n),
    }
}

// Whether the first cells have a third value: most grids that have one are told so at once.
fn has_third(grid: &[u8]) -> bool {
    let Some(first) = grid.first() else {
        return false;
    };
    let mut second = first;
    for cell in grid.iter().take(16) {
        if cell != first && cell != second {
            if second != first {
                return true;
            }
            second = cell;
        }
    }
    false
}

// Whether all cells are the same.
fn has_one(grid: &[u8]) -> bool {
    match grid.first() {
        Some(first) => grid.iter().all(|cell| cell == first),
        None => true,
    }
}

// Whether the general search is as quick: the grid has more than two values, or one value and fewer than 16 columns.
pub fn is_left(grid: &[u8], n: usize) -> bool {
    has_third(grid) || n < 16 && has_one(grid)
}

// The orders of the least arrangement, if the grid has two values at most, and a shape within the limits.
pub fn least_arrangement(grid: &[u8], m: usize, n: usize) -> Option<Orders<8>>
    ensures { IfSome result (ArrangedLeast m n grid.now) }
{
    if 8 < m || 16 < n || grid.len() != m * n {
        return None;
    }
    let low = values::lower_of_two(grid)?;
    let grid = TwoValuedGrid::new(grid, m, n, low);
    Some(searched(&grid))
}
