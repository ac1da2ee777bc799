// What enter and strike ask of a register, a client and a grid before anything else.
ghost use Rattle.std.specs.Prelude.{◌≡◌, [], ◌∷◌, length};
ghost use Rattle.refusals.specs.Numbers.{asked_number};
ghost use Rattle.grids.specs.Questions.{first_no};
ghost use Rattle.calls.specs.Entries.{question15};
ghost use Rattle.register.specs.Asked.{asked_by, Asks};

use canonical::callers::Caller;
use canonical::represent;
use lines::entries::CLIENTS;
use lines::head;
use lines::head::Head;
use refusals::Refusal;
use validation::question5;

// Question 15.
fn ask_client(client: usize) -> Result<(), Refusal>
    ensures { asked_number result ≡ first_no (question15 client ∷ []) }
{
    if client < 1 || CLIENTS < client {
        return Err(Refusal::Client);
    }
    Ok(())
}

// Asks questions 5, 6, 7 and 15, and after 5 what this caller asks besides. Where each gets a yes, the least arrangement of the grid is
// written to the front of a slice, and the register's line 1 is returned.
pub fn ask<C: Caller<N>, const N: usize>(
    register: &[u8],
    client: usize,
    grid: &[u8],
    least: &mut [u8],
) -> Result<Head, Refusal>
    requires { length least.old ≡ 128 }
    ensures { Asks (asked_by C.questions register.now client grid.now) client register.now grid.now least.new result }
{
    if !question5::is_laid_out(register) {
        return Err(Refusal::Layout);
    }
    let head = head::read_head(register);
    let size = head.rows * head.columns;
    represent::represent::<C, N>(head.rows, head.columns, head.top, grid, &mut least[..size])?;
    ask_client(client)?;
    Ok(head)
}
