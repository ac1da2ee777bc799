// Rows that need not be placed next, since another row can be that gives no later arrangement.
ghost use Rattle.std.specs.Prelude.{◌≡◌, ◌≤◌, ◌<◌, length};
ghost use Rattle.permutations.specs.Rows.{row_numbers, IsRowPermutation};
ghost use Rattle.two_values.specs.Nodes.{GoesOn, DropsAt, LeftAt};
ghost use Rattle.two_values.specs.Contests.{LosesIn};
ghost use Rattle.two_values.specs.Domination.{MarksLeast};

use crate::contests::Contest;
use crate::nodes::Node;
use crate::pairs::Side;
use crate::tables::TwoValuedGrid;
use permutations::rows::RowPermutation;

impl Contest<'_> {
    // Of the rows at positions s and t, the position of one that the other is over, if both are marked.
    fn loser(&self, marks: &[bool; 8], s: usize, t: usize) -> Option<usize>
        requires { (s < self.now.grid.now.m) × (t < self.now.grid.now.m) }
        ensures { LosesIn self.now marks.now s t result }
    {
        if !marks[s] || !marks[t] {
            return None;
        }
        match self.side(self.row(s), self.row(t))? {
            Side::First => Some(t),
            Side::Second => Some(s),
        }
    }

    // The marks after the row at s is held against each that comes later.
    fn against(&self, marks: [bool; 8], s: usize) -> [bool; 8]
        requires { (length marks ≡ 8) × (self.now.node.now.k ≤ s) × (s < self.now.grid.now.m) }
        ensures { DropsAt self.now.grid.now self.now.node.now marks result }
    {
        let mut out = marks;
        for t in s + 1..self.grid.m {
            if let Some(at) = self.loser(&out, s, t) {
                out[at] = false;
            }
        }
        out
    }

    // The marks after the marked rows are held against each other: only the first of them, where nothing comes of that.
    fn all_dropped(&self, marks: [bool; 8]) -> [bool; 8]
        requires { length marks ≡ 8 }
        ensures { DropsAt self.now.grid.now self.now.node.now marks result }
    {
        let mut out = marks;
        for s in self.node.k..self.grid.m {
            out = self.against(out, s);
            if marks[s] && out == marks {
                return out;
            }
        }
        out
    }
}

// The positions from k on whose rows have the least key.
fn marked(m: usize, k: usize, rows: RowPermutation, keys: [u16; 8], least: u16) -> [bool; 8]
    requires { IsRowPermutation m rows × (m ≤ 8) × (k < m) }
    ensures { MarksLeast k m (row_numbers rows) keys least result }
{
    let mut out = [false; 8];
    for t in k..m {
        out[t] = keys[rows.number(t).0 as usize] == least;
    }
    out
}

// How many positions from k on have a row with the least key.
fn count_least(m: usize, k: usize, rows: RowPermutation, keys: [u16; 8], least: u16) -> usize
    requires { IsRowPermutation m rows × (m ≤ 8) }
{
    let mut count = 0;
    for t in k..m {
        if keys[rows.number(t).0 as usize] == least {
            count += 1;
        }
    }
    count
}

// The positions whose rows may have to be placed next: of the rows with the least key, only those that no other dominates. All are left where
// only one row has the least key, or where symmetries are kept, which tell more.
pub fn left(grid: &TwoValuedGrid, node: &Node, keys: [u16; 8], least: u16, kept: usize) -> [bool; 8]
    requires { GoesOn grid.now node.now }
    ensures { LeftAt grid.now node.now keys least result }
{
    if kept != 0 || count_least(grid.m, node.k, node.rows, keys, least) < 2 {
        return [true; 8];
    }
    let marks = marked(grid.m, node.k, node.rows, keys, least);
    Contest::new(grid, node).all_dropped(marks)
}
