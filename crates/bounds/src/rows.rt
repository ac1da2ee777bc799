// Row 0 and another row: what the lows of row 0 and the highs of the other leave to each other. By document 000, once the leading
// columns where row 0's lows and the sorted highs agree are passed, row 0 loses values from above and the other row from below.
ghost use Rattle.std.specs.Prelude.{◌≡◌, ◌≤◌, ◌<◌, false, length, MatchOption};
ghost use Rattle.bounds.specs.Rows.{cell_at, Values, AgreeTo, SaysBelow, SaysNoLater, SaysUnder, Parted, IsCap, IsLows, IsHighs, RowSizes, RowOutcome};

use crate::lows::RowLows;
use crate::sorting;
use grids::cells;

// The lows of row 0 beside the sorted highs of another row.
#[derive(Clone, Copy)]
pub struct Rows<'a> {
    pub lows: &'a [u8],
    pub sorted: [u8; 16],
    ghost short: { length lows.now ≤ 16 },
}

impl<'a> Rows<'a> {
    // The end of the columns, from `from` on, in which the lows equal the sorted row at `shift` columns before. An end, as of a slice, and
    // no Option: where they equal it in all it is how many columns there are.
    fn agreement(&self, shift: usize, from: usize) -> usize
        requires { (shift ≤ from) × (from ≤ length self.now.lows.now) }
        ensures { AgreeTo (length self.now.lows.now) (cell_at self.now.lows.now) (cell_at self.now.sorted) shift from result }
    {
        for t in from..self.lows.len() {
            if self.lows[t] != self.sorted[t - shift] {
                return t;
            }
        }
        self.lows.len()
    }

    // Whether the lows end before a column, or have there a value that ranks below the sorted row's at `shift` columns before.
    #[tactic(auto, unfolding(crate::specs::Rows::SaysBelow))]
    fn is_below(&self, shift: usize, at: usize) -> bool
        requires { shift ≤ at }
        ensures { SaysBelow result (length self.now.lows.now) (cell_at self.now.lows.now) (cell_at self.now.sorted) shift at }
    {
        self.lows.len() <= at || cells::rank(self.lows[at]) < cells::rank(self.sorted[at - shift])
    }

    // Whether the lows, compared from a column on, come no later than the sorted row.
    fn is_no_later(&self, from: usize) -> bool
        requires { from ≤ length self.now.lows.now }
        ensures { SaysNoLater result (length self.now.lows.now) (cell_at self.now.lows.now) (cell_at self.now.sorted) from }
    {
        self.is_below(0, self.agreement(0, from))
    }

    // The rows parted, where the lows come no later than the sorted row.
    fn parting(self) -> Option<Parting<'a>>
        ensures { MatchOption result (SaysNoLater false (length self.entry.lows.now) (cell_at self.entry.lows.now) (cell_at self.entry.sorted) 0) (λ p. p.rows ≡ self.entry) }
    {
        let at = self.agreement(0, 0);
        if self.is_below(0, at) {
            Some(Parting { rows: self, at })
        } else {
            None
        }
    }
}

// Rows of which the lows come no later than the sorted highs, and the first column where they differ; how many columns there are if
// none does, as the end of a slice.
#[derive(Clone, Copy)]
pub struct Parting<'a> {
    pub rows: Rows<'a>,
    pub at: usize,
    ghost parted: { Parted (length rows.lows.now) (cell_at rows.lows.now) (cell_at rows.sorted) at },
}

impl Parting<'_> {
    // The highest value that row 0 may have at the column where the rows differ.
    fn cap(&self) -> u8
        requires { self.now.at < length self.now.rows.lows.now }
        ensures { IsCap (length self.now.rows.lows.now) (cell_at self.now.rows.lows.now) (cell_at self.now.rows.sorted) self.now.at result }
    {
        let highest = self.rows.sorted[self.at];
        if self.rows.is_no_later(self.at + 1) {
            highest
        } else {
            cells::previous(highest)
        }
    }

    // Lowers the highs of row 0: before the column where the rows differ to its lows, and at it to the cap.
    fn lower_highs(&self, highs: &mut [u8])
        requires { length highs.old ≡ length self.now.rows.lows.now }
        ensures { IsHighs (length self.now.rows.lows.now) (cell_at self.now.rows.lows.now) (cell_at self.now.rows.sorted) (cell_at highs.old) (cell_at highs.new) }
    {
        let at = self.at;
        // no copy_from_slice: on rows of six cells its call takes a tenth of prune's time
        for c in 0..at {
            highs[c] = self.rows.lows[c];
        }
        if at < highs.len() {
            highs[at] = cells::lower(highs[at], self.cap());
        }
    }

    // Whether the sorted row has, just before the column where the rows differ, a value above the lows' at that column; so too where the
    // lows end before it.
    #[tactic(auto, unfolding(crate::specs::Rows::SaysUnder, crate::specs::Rows::SaysBelow))]
    fn is_under(&self) -> bool
        requires { 0 < length self.now.rows.lows.now }
        ensures { SaysUnder result (length self.now.rows.lows.now) (cell_at self.now.rows.lows.now) (cell_at self.now.rows.sorted) self.now.at }
    {
        self.at != 0 && self.rows.is_below(1, self.at)
    }

    // What the lows of row 0 ask of the other row.
    #[tactic(auto, unfolding(crate::specs::Rows::SaysUnder, crate::specs::Rows::SaysBelow))]
    fn row_lows(&self) -> RowLows
        requires { (0 < length self.now.rows.lows.now) × Values (length self.now.rows.lows.now) 15 (cell_at self.now.rows.sorted) }
        ensures { IsLows (length self.now.rows.lows.now) (cell_at self.now.rows.lows.now) (cell_at self.now.rows.sorted) result }
    {
        let Rows { lows, sorted } = self.rows;
        let at = self.at;
        if self.is_under() {
            let last = sorted[at - 1];
            return RowLows {
                floor: last,
                limit: last,
                least: last,
                raised: last,
            };
        }
        let least = lows[at];
        let floor = sorted[at];
        let end = self.rows.agreement(1, at + 1);
        if self.rows.is_below(1, end) {
            return RowLows {
                floor,
                limit: floor,
                least,
                raised: least,
            };
        }
        let limit = if self.rows.is_no_later(end) {
            sorted[end]
        } else {
            sorted[end - 1]
        };
        RowLows {
            floor,
            limit,
            least,
            raised: cells::next(least),
        }
    }
}

// Prunes row 0 and another row, of one length: x has the lows of row 0, and `highs` its highs, which are lowered; `high` has the highs
// of the other row, and `lows` its lows, which are raised. False where x leads no row within the bounds. The bounds of a row are no struct:
// one half of each changes here, and not the same one.
pub fn prune_row(x: &[u8], high: &[u8], highs: &mut [u8], lows: &mut [u8]) -> bool
    requires { RowSizes (length x.now) high.now highs.old lows.old × Values (length x.now) 15 (cell_at high.now) }
    ensures { RowOutcome result (length x.now) (cell_at x.now) (cell_at lows.old) (cell_at high.now) (cell_at highs.old) (cell_at highs.new) (cell_at lows.new) }
{
    let rows = Rows {
        lows: x,
        sorted: sorting::sorted(high),
    };
    let Some(parting) = rows.parting() else {
        return false;
    };
    parting.lower_highs(highs);
    parting.row_lows().raise(high, lows);
    true
}
