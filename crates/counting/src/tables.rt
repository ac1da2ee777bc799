// The tables of bounds, by which the bytes of a line's cells are tested: each has three bytes for a cell.
ghost use Rattle.std.specs.Prelude.{◌≡◌, ◌-◌, ◌<◌, ◌≤◌, length};
ghost use Rattle.grids.specs.Order.{rank};
ghost use Rattle.counting.specs.Within.{OrderedBounds, BoundTables};

use grids::cells;
use lines::tables::{Table, fill};

#[derive(Drop)]
pub struct Tables {
    // The rank of the low, at a field's last byte.
    pub lows: Table,
    // How far the rank of the high is above it, there; as far as any is, at the other bytes.
    pub spans: Table,
}

impl Tables {
    pub fn new(low: &[u8], high: &[u8]) -> Tables
        requires { OrderedBounds low.now high.now }
        ensures { BoundTables (length low.now) low.now high.now result.lows result.spans }
    {
        let size = low.len();
        let mut tables = Tables {
            lows: [0; 384],
            spans: [0; 384],
        };
        fill(&mut tables.lows, size, 0, 0, |k| cells::rank(low[k]));
        fill(
            &mut tables.spans,
            size,
            u8::MAX,
            u8::MAX,
            |k| span(low[k], high[k]),
        );
        tables
    }
}

// How far the rank of a high is above that of its low.
fn span(low: u8, high: u8) -> u8
    requires { rank low ≤ rank high }
    ensures { (result ≡ rank high - rank low) × (rank high < 256) }
{
    cells::rank(high) - cells::rank(low)
}
