// The search for the least arrangement of a grid with two values. It goes over partial row orders: one row is placed after another. Each
// row that can come next has a number, and the row with the lesser number gives the lesser next row; all that have the least one are followed.
ghost use Rattle.std.specs.Prelude.{◌≡◌, ◌≤◌, ◌<◌};
ghost use Rattle.permutations.specs.Rows.{row_numbers, IsRowPermutation};
ghost use Rattle.two_values.specs.Search.{Lowest, Cuts, Lowers, Rekeyed};
ghost use Rattle.two_values.specs.Nodes.{Stands, Finds};

use crate::nodes::Node;
use crate::symmetries::Kept;
use crate::tables::TwoValuedGrid;
use crate::{columns, domination, settled, symmetries};
use permutations::rows::RowPermutation;

// The best, the numbers of its rows, and how many columns come after each; the position that the search can go back to; and the
// symmetries found. Where the position is before the number of rows placed, an arrangement of the branch equals the best one, whose row
// order begins with the same `back` rows. The position is the number of all rows where there is none, so that one comparison tells both.
#[derive(Clone, Copy)]
pub struct Found {
    pub best: RowPermutation,
    pub after: [u8; 16],
    pub keys: [u16; 8],
    pub back: usize,
    pub kept: Kept,
}

impl Found {
    // Notes the number of row k.
    pub fn rekey(&mut self, m: usize, k: usize, least: u16)
        requires { k < 8 }
        ensures { Rekeyed m k least self.old self.new }
    {
        self.keys[k] = least;
        self.back = m;
    }
}

// The least number of the rows from position k on.
fn lowest(keys: [u16; 8], rows: RowPermutation, m: usize, k: usize) -> u16
    requires { IsRowPermutation m rows × (m ≤ 8) × (k < m) }
    ensures { Lowest m k (row_numbers rows) keys result }
{
    let mut least = keys[rows.number(k).0 as usize];
    for t in k + 1..m {
        least = least.min(keys[rows.number(t).0 as usize]);
    }
    least
}

// Whether the best's next row is known, and lower than the least. `search` has the same of 64 bits; a function over any `Ord` would say one
// comparison no plainer.
pub fn is_cut(fresh: bool, known: u16, least: u16) -> bool
    ensures { Cuts fresh known least result }
{
    !fresh && known < least
}

// Whether the best's next row is not known, or higher than the least.
pub fn is_lower(fresh: bool, known: u16, least: u16) -> bool
    ensures { Lowers fresh known least result }
{
    fresh || least < known
}

// What the search finds where all rows are placed: a new best, or a symmetry of the grid.
pub fn reached(grid: &TwoValuedGrid, node: &Node, found: &mut Found)
    requires { Stands grid.now node.now found.old × (node.now.k ≡ grid.now.m) }
    ensures { Finds grid.now node.now found.old found.new }
{
    if node.fresh {
        let after = node.after;
        found.best = node.rows;
        found.after = after;
        found.back = grid.m;
        return;
    }
    found.back = node.rows.parting(&found.best, grid.m).unwrap_or(grid.m);
    if found.kept.count < 4 {
        let map = symmetries::carrying(grid.m, found.best, node.rows);
        found.kept.keep(map);
    }
}

// The best of the branch of a node, and of what was the best before. Where an arrangement equals the best one, the two row orders show a
// symmetry of the grid, and the search goes back to where they part.
pub fn place(grid: &TwoValuedGrid, node: &Node, found: &mut Found)
    requires { Stands grid.now node.now found.old }
    ensures { Finds grid.now node.now found.old found.new }
{
    let m = grid.m;
    let k = node.k;
    if k == m {
        reached(grid, node, found);
        return;
    }
    let keys = columns::row_keys(&grid.columns, &node.after);
    if settled::tells_all(m, grid.n, k, &node.after) {
        settled::completed(grid, node, keys, found);
        return;
    }
    let least = lowest(keys, node.rows, m, k);
    let known = found.keys[k];
    if is_cut(node.fresh, known, least) {
        found.rekey(m, k, known);
        return;
    }
    let left = domination::left(grid, node, keys, least, found.kept.count);
    found.rekey(m, k, least);
    let mut fresh = is_lower(node.fresh, known, least);
    let mut covered = [false; 8];
    for t in k..m {
        let row = node.rows.number(t);
        let at = row.0 as usize;
        if keys[at] == least && left[t] && !covered[at] {
            let next = Node {
                k: k + 1,
                rows: node.rows.swapped(k, t),
                after: columns::refined(&grid.rows, row, &node.after),
                fresh,
            };
            place(grid, &next, found);
            if found.back < k {
                return;
            }
            fresh = false;
            covered = symmetries::covered_with(grid, node, &found.kept, covered, row);
        }
    }
}
