// The call prune.
ghost use Rattle.std.specs.Prelude.{◌≡◌, ◌*◌};
ghost use Rattle.bounds.specs.Rows.{cell_at, Values};
ghost use Rattle.bounds.specs.Narrowed.{NarrowSizes, NarrowOutcome};
ghost use Rattle.bounds.specs.Prune.{pruned_to};
ghost use Rattle.bounds.specs.Pruning.{pruning_number, pruning_count};
ghost use Rattle.bounds.specs.Demand2.{Prunes};
ghost use Rattle.bounds.specs.declared.prune.NotPruned.TheVariants.{Refused};

use crate::{asking, rows, values};
use grids::questions;
use refusals::Refusal;

// Why prune changes nothing: no grid within the bounds has allperm, or a question got a no.
#[derive(Clone, Copy, Debug, PartialEq, Eq)]
pub enum NotPruned {
    NoGrid,
    Refused(Refusal),
}

impl From<Refusal> for NotPruned {
    ghost from_gives = { λ refusal reason. reason ≡ Refused refusal };

    fn from(refusal: Refusal) -> NotPruned {
        NotPruned::Refused(refusal)
    }
}

// Prunes row 0 with each other row in turn: low and high are copied to lows and highs, which are narrowed. False where no
// grid within the bounds has allperm. The four slices are no pairs of bounds: of row 0 the highs change, of every other row the lows.
fn narrow(m: usize, n: usize, low: &[u8], high: &[u8], lows: &mut [u8], highs: &mut [u8]) -> bool
    requires { NarrowSizes m n low.now high.now lows.old highs.old × Values (m * n) 15 (cell_at high.now) }
    ensures { NarrowOutcome result m n low.now high.now lows.new highs.new }
{
    lows.copy_from_slice(low);
    highs.copy_from_slice(high);
    for i in 1..m {
        let start = i * n;
        let end = start + n;
        if !rows::prune_row(
            &low[..n],
            &high[start..end],
            &mut highs[..n],
            &mut lows[start..end],
        ) {
            return false;
        }
    }
    true
}

// Writes to low and high, for each cell, the lowest and the highest value that some grid within the bounds has there with allperm
// true, and returns how many values it removed. Otherwise the bounds are as they were.
pub fn prune(
    m: usize,
    n: usize,
    top: usize,
    low: &mut [u8],
    high: &mut [u8],
) -> Result<u32, NotPruned>
    ensures { Prunes m n top low.old high.old (pruned_to (pruning_number result) (pruning_count result) low.new high.new) }
{
    questions::ask_limits(m, n, top)?;
    let size = m * n;
    asking::ask_bounds(size, top, low, high)?;
    let mut lows = [0u8; 128];
    let lows = &mut lows[..size];
    let mut highs = [0u8; 128];
    let highs = &mut highs[..size];
    if !narrow(m, n, low, high, lows, highs) {
        return Err(NotPruned::NoGrid);
    }
    let count = values::removed(low, high, lows, highs);
    low.copy_from_slice(lows);
    high.copy_from_slice(highs);
    Ok(count)
}
