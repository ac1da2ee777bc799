// Symmetries of the grid that the search finds: maps of row numbers.
ghost use Rattle.std.specs.Prelude.{◌≡◌, true, ℕ, ◌+◌, ◌≤◌, ◌<◌, get_or, set};
ghost use Rattle.permutations.specs.Rows.{row_numbers, IsRowPermutation};
ghost use Rattle.two_values.specs.Nodes.{Keeps, SpreadsAt};
ghost use Rattle.two_values.specs.Symmetries.{Carries, Fixes, Images};

use crate::nodes::Node;
use crate::tables::TwoValuedGrid;
use permutations::rows::{RowNumber, RowPermutation};

// The symmetries kept: the first `count` of four maps.
#[derive(Clone, Copy)]
pub struct Kept {
    pub maps: [[u8; 8]; 4],
    pub count: usize,
}

impl Kept {
    // Keeps one more.
    pub fn keep(&mut self, map: [u8; 8])
        requires { self.old.count < 4 }
        ensures { (self.new.maps ≡ set self.old.maps self.old.count map) × (self.new.count ≡ self.old.count + 1) }
    {
        self.maps[self.count] = map;
        self.count += 1;
    }
}

// The map that carries the first row order to the second.
pub fn carrying(m: usize, first: RowPermutation, second: RowPermutation) -> [u8; 8]
    requires { (m ≤ 8) × IsRowPermutation m first }
    ensures { Carries m (row_numbers first) (row_numbers second) result }
{
    let mut map = [0u8; 8];
    for i in 0..m {
        map[first.number(i).0 as usize] = second.number(i).0;
    }
    map
}

// Whether a symmetry moves none of the first k rows.
fn fixes(map: &[u8; 8], rows: RowPermutation, k: usize) -> bool
    requires { (i : ℕ) → i < k → get_or (row_numbers rows) i 0 < 8 }
    ensures { Fixes map.now (row_numbers rows) k result }
{
    (0..k).all(|i| {
        let row = rows.number(i).0;
        map[row as usize] == row
    })
}

// The rows marked, and images of them under a symmetry.
fn images(map: &[u8; 8], m: usize, covered: [bool; 8]) -> [bool; 8]
    requires { m ≤ 8 }
    ensures { Images m map.now covered result }
{
    let mut out = covered;
    for r in 0..m {
        let image = map[r] as usize;
        if out[r] && image < 8 {
            out[image] = true;
        }
    }
    out
}

// The rows marked, with one more, and their images under the symmetries that move none of the rows placed. Where no symmetry is kept,
// nothing comes of the row.
pub fn covered_with(
    grid: &TwoValuedGrid,
    node: &Node,
    kept: &Kept,
    covered: [bool; 8],
    row: RowNumber,
) -> [bool; 8]
    requires { (node.now.k < grid.now.m) × IsRowPermutation grid.now.m node.now.rows × Keeps grid.now kept.now × (row.0 < 8) }
    ensures { SpreadsAt grid.now node.now (set covered row.0 true) result }
{
    if kept.count == 0 {
        return covered;
    }
    let mut out = covered;
    out[row.0 as usize] = true;
    for map in &kept.maps[..kept.count] {
        if fixes(map, node.rows, node.k) {
            out = images(map, grid.m, out);
        }
    }
    out
}
