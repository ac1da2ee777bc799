// The lowest values that a row allows.
ghost use Rattle.std.specs.Prelude.{◌≡◌, length};
ghost use Rattle.bounds.specs.Rows.{cell_at, low_for, RaisedTo};

use grids::cells;

// The lowest value that a row allows, by a cell's high: the high itself below `floor`, `least` from there on, `raised` from `limit` on.
#[derive(Clone, Copy)]
pub struct RowLows {
    pub floor: u8,
    pub limit: u8,
    pub least: u8,
    pub raised: u8,
}

impl RowLows {
    // The lowest value that the row allows where the high is y.
    #[tactic(auto, unfolding(crate::specs::Rows::low_for))]
    fn low_for(self, y: u8) -> u8
        ensures { result ≡ low_for self y }
    {
        let rank = cells::rank(y);
        if rank < cells::rank(self.floor) {
            y
        } else if rank < cells::rank(self.limit) {
            self.least
        } else {
            self.raised
        }
    }

    // Raises the lows of the row: each stays, or becomes the lowest value that the row allows, whichever is higher.
    #[tactic(auto, unfolding(crate::specs::Rows::RaisedTo))]
    pub fn raise(self, high: &[u8], lows: &mut [u8])
        requires { length high.now ≡ length lows.old }
        ensures { RaisedTo (length lows.old) self (cell_at lows.old) (cell_at high.now) (cell_at lows.new) }
    {
        for (c, low) in lows.iter_mut().enumerate() {
            *low = cells::higher(*low, self.low_for(high[c]));
        }
    }
}
