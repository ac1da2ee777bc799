// The call strike.
ghost use Rattle.std.specs.Prelude.{◌≡◌, true, ◌≤◌, length};
ghost use Rattle.layout.specs.Layout.{clients};
ghost use Rattle.refusals.specs.Numbers.{asked_number};
ghost use Rattle.register.specs.Answers.{striking_place};
ghost use Rattle.calls.specs.Calls.{struck, placed};
ghost use Rattle.calls.specs.Valid.{Valid, struck_least};
ghost use Rattle.register.specs.Sought.{Sought};

use crate::{asking, held, places};
use canonical::callers::OrderSystem;
use refusals::Refusal;

// Strikes a grid that stands at its place: the client's holding goes down by 1, and where nobody holds it then its line is taken out.
fn strike_held(
    register: &mut [u8],
    count: usize,
    place: usize,
    client: usize,
    least: &[u8],
) -> Result<u32, Refusal>
    requires { Sought true count place client register.old least.now }
    ensures { placed (asked_number result) (striking_place result) register.new ≡ struck_least register.old client least.now }
{
    let held = held::holding(register, count, place, client, least);
    if held == 0 {
        return Err(Refusal::NotHeld);
    }
    held::hold(register, count, place, client, least, held - 1);
    Ok(place as u32 + 1)
}

// Strikes a grid that is least in its class from a register that is laid out.
fn strike_least(
    register: &mut [u8],
    count: usize,
    client: usize,
    least: &[u8],
) -> Result<u32, Refusal>
    requires { Valid (length least.now) count register.old × (1 ≤ client) × (client ≤ clients) }
    ensures { placed (asked_number result) (striking_place result) register.new ≡ struck_least register.old client least.now }
{
    let place = places::lower_bound(register, count, least);
    if !places::is_entry(register, count, place, least) {
        return Err(Refusal::NotHeld);
    }
    strike_held(register, count, place, client, least)
}

// Strikes the class of a grid for a client, who then holds it once less: the place that its entry had. Where a question gets a no, the
// register is as it was.
pub fn strike(register: &mut [u8], client: usize, grid: &[u8]) -> Result<u32, Refusal>
    ensures { placed (asked_number result) (striking_place result) register.new ≡ struck register.old client grid.now }
{
    let mut least = [0u8; 128];
    let head = asking::ask::<OrderSystem, 8>(register, client, grid, &mut least)?;
    let size = head.rows * head.columns;
    strike_least(register, head.count, client, &least[..size])
}
