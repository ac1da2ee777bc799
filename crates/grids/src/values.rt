// Which values a grid has. No loop is left early, so that many cells are looked at together.
ghost use Rattle.std.specs.Prelude.{◌≡◌, true, ◌⊎◌, ℕ, ◌≤◌, ◌<◌, length, get_or, IfSome};
ghost use Rattle.grids.specs.Order.{rank};
ghost use Rattle.grids.specs.Values.{HasCell, TwoValued};

use crate::cells;

// The lowest value of a grid.
fn lowest(grid: &[u8]) -> u8
    requires { 0 < length grid.now }
    ensures { HasCell grid.now result × ((i : ℕ) → i < length grid.now → rank result ≤ rank (get_or grid.now i 0)) }
{
    let mut low = grid[0];
    for cell in grid {
        low = cells::lower(low, *cell);
    }
    low
}

// The highest value of a grid.
fn highest(grid: &[u8]) -> u8
    requires { 0 < length grid.now }
{
    let mut high = grid[0];
    for cell in grid {
        high = cells::higher(high, *cell);
    }
    high
}

// Whether every cell is one of two values.
fn has_only(grid: &[u8], low: u8, high: u8) -> bool
    ensures { result ≡ true → (i : ℕ) → i < length grid.now → (get_or grid.now i 0 ≡ low) ⊎ (get_or grid.now i 0 ≡ high) }
{
    let mut either = true;
    for cell in grid {
        either &= (*cell == low) | (*cell == high);
    }
    either
}

// The lower value of a grid, if it has two at most; 0 if it has no cell.
pub fn lower_of_two(grid: &[u8]) -> Option<u8>
    ensures { IfSome result (λ low. TwoValued grid.now low × HasCell grid.now low) }
{
    if grid.is_empty() {
        return Some(0);
    }
    let low = lowest(grid);
    if has_only(grid, low, highest(grid)) {
        Some(low)
    } else {
        None
    }
}
