// The call enter, and a terminal's.
ghost use Rattle.std.specs.Prelude.{◌≡◌, true, false, ◌≤◌, length};
ghost use Rattle.layout.specs.Layout.{clients, decode_shape};
ghost use Rattle.register.specs.Answers.{entering_number, entering_place};
ghost use Rattle.calls.specs.Calls.{entered, terminal_entered, placed};
ghost use Rattle.calls.specs.Valid.{Valid, entered_least};
ghost use Rattle.register.specs.Asked.{entered_by};
ghost use Rattle.register.specs.Sought.{Sought};

use crate::answers::Entered;
use crate::{asking, held, places};
use canonical::callers::{Caller, OrderSystem, Terminal};
use lines::{entries, head};
use refusals::Refusal;

// Enters a grid that stands at its place: the client's holding goes up by 1.
fn enter_held(
    register: &mut [u8],
    count: usize,
    place: usize,
    client: usize,
    least: &[u8],
) -> Result<Entered, Refusal>
    requires { Sought true count place client register.old least.now }
    ensures { placed (entering_number result) (entering_place result) register.new ≡ entered_least register.old client least.now }
{
    let held = held::holding(register, count, place, client, least);
    if entries::MOST_HELD <= held {
        return Err(Refusal::Holding);
    }
    held::hold(register, count, place, client, least, held + 1);
    Ok(Entered::Held(place as u32 + 1))
}

// Enters a grid that does not stand at its place: its line is put in there.
fn enter_new(
    register: &mut [u8],
    capacity: usize,
    count: usize,
    place: usize,
    client: usize,
    least: &[u8],
) -> Result<Entered, Refusal>
    requires { Sought false count place client register.old least.now × (capacity ≡ (decode_shape register.old).capacity) }
    ensures { placed (entering_number result) (entering_place result) register.new ≡ entered_least register.old client least.now }
{
    if capacity <= count {
        return Err(Refusal::Full);
    }
    let size = least.len();
    let start = entries::line_start(size, place);
    let moved = (count - place) * entries::line_length(size);
    entries::insert_line(&mut register[start..], moved, least, client);
    head::write_count(register, count + 1);
    Ok(Entered::New(place as u32 + 1))
}

// Enters a grid that is least in its class into a register that is laid out.
fn enter_least(
    register: &mut [u8],
    capacity: usize,
    count: usize,
    client: usize,
    least: &[u8],
) -> Result<Entered, Refusal>
    requires { Valid (length least.now) count register.old × (capacity ≡ (decode_shape register.old).capacity) × (1 ≤ client) × (client ≤ clients) }
    ensures { placed (entering_number result) (entering_place result) register.new ≡ entered_least register.old client least.now }
{
    let place = places::lower_bound(register, count, least);
    if places::is_entry(register, count, place, least) {
        return enter_held(register, count, place, client, least);
    }
    enter_new(register, capacity, count, place, client, least)
}

// Enters the class of a grid, for this caller.
fn enter_by<C: Caller<N>, const N: usize>(
    register: &mut [u8],
    client: usize,
    grid: &[u8],
) -> Result<Entered, Refusal>
    ensures { placed (entering_number result) (entering_place result) register.new ≡ entered_by C.questions register.old client grid.now }
{
    let mut least = [0u8; 128];
    let head = asking::ask::<C, N>(register, client, grid, &mut least)?;
    let size = head.rows * head.columns;
    enter_least(register, head.capacity, head.count, client, &least[..size])
}

// Enters the class of a grid for a client, who then holds it once more: the place of its entry, which is new where nobody held it.
// Where a question gets a no, the register is as it was.
pub fn enter(register: &mut [u8], client: usize, grid: &[u8]) -> Result<Entered, Refusal>
    ensures { placed (entering_number result) (entering_place result) register.new ≡ entered register.old client grid.now }
{
    enter_by::<OrderSystem, 8>(register, client, grid)
}

// The same at a terminal. Each has a clause of its own, in the words of the calls.
pub fn enter_at_terminal(
    register: &mut [u8],
    client: usize,
    grid: &[u8],
) -> Result<Entered, Refusal>
    ensures { placed (entering_number result) (entering_place result) register.new ≡ terminal_entered register.old client grid.now }
{
    enter_by::<Terminal, 5>(register, client, grid)
}
