// The call count.
ghost use Rattle.std.specs.Prelude.{◌≡◌};
ghost use Rattle.refusals.specs.Numbers.{asked_number};
ghost use Rattle.bounds.specs.Pruning.{counting_count};
ghost use Rattle.calls.specs.Calls.{counted, placed};

use bounds::asking;
use counting::within;
use lines::head;
use refusals::Refusal;
use validation::question5;

// How many entries lie within the bounds.
pub fn count(register: &[u8], low: &[u8], high: &[u8]) -> Result<u32, Refusal>
    ensures { placed (asked_number result) (counting_count result) register.now ≡ counted register.now low.now high.now }
{
    if !question5::is_laid_out(register) {
        return Err(Refusal::Layout);
    }
    let head = head::read_head(register);
    asking::ask_bounds(head.rows * head.columns, head.top, low, high)?;
    Ok(within::count_within(register, head.count, low, high) as u32)
}
