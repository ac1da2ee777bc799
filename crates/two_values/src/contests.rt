// The rows that can come next at a node of the search, to be held against each other.
ghost use Rattle.std.specs.Prelude.{◌≡◌, get_or};
ghost use Rattle.permutations.specs.Rows.{row_numbers};
ghost use Rattle.two_values.specs.Nodes.{GoesOn};
ghost use Rattle.two_values.specs.Domination.{Prepared};

use crate::nodes::Node;
use crate::tables::TwoValuedGrid;
use crate::words;

// A grid and a node, with the words of the grid's rows and columns.
#[derive(Drop)]
pub struct Contest<'a> {
    pub grid: &'a TwoValuedGrid<'a>,
    pub node: &'a Node,
    pub words: [u32; 8],
    pub lows: [u32; 16],
    pub ghost prepared: { Prepared grid.now.m grid.now.n grid.now.cells.now grid.now.low grid.now.columns grid.now.rows node.now.k node.now.rows node.now.after words lows },
}

impl<'a> Contest<'a> {
    pub fn new(grid: &'a TwoValuedGrid<'a>, node: &'a Node) -> Contest<'a>
        requires { GoesOn grid.now node.now }
        ensures { (result.grid.now ≡ grid.now) × (result.node.now ≡ node.now) }
    {
        let words = words::words::<16, 8>(&grid.columns);
        let lows = words::words::<8, 16>(&grid.rows);
        Contest {
            grid,
            node,
            words,
            lows,
        }
    }

    // The number of the row at a position.
    pub fn row(&self, i: usize) -> usize
        ensures { result ≡ get_or (row_numbers self.now.node.now.rows) i 0 }
    {
        self.node.rows.number(i).0 as usize
    }
}
