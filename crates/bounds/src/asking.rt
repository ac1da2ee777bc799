// What is asked of two bounds before anything else.
ghost use Rattle.std.specs.Prelude.{◌≡◌};
ghost use Rattle.refusals.specs.Numbers.{asked_number};
ghost use Rattle.grids.specs.Questions.{first_no};
ghost use Rattle.bounds.specs.Prune.{bounds_questions};

use crate::order;
use grids::questions;
use refusals::Refusal;

// Questions 6, 7 and 8 of two bounds.
pub fn ask_bounds(size: usize, top: usize, low: &[u8], high: &[u8]) -> Result<(), Refusal>
    ensures { asked_number result ≡ first_no (bounds_questions size top low.now high.now) }
{
    if low.len() != size || high.len() != size {
        return Err(Refusal::Length);
    }
    if !questions::is_capped(low, top) || !questions::is_capped(high, top) {
        return Err(Refusal::Cell);
    }
    if !order::is_ordered(low, high) {
        return Err(Refusal::Bounds);
    }
    Ok(())
}
