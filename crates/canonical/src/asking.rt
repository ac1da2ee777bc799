// What represent and same ask before anything else.
ghost use Rattle.std.specs.Prelude.{◌≡◌, ◌≤◌};
ghost use Rattle.refusals.specs.Numbers.{asked_number};
ghost use Rattle.grids.specs.Questions.{first_no};
ghost use Rattle.canonical.specs.Represent.{represent_questions};
ghost use Rattle.canonical.specs.Same.{same_questions};

use crate::callers::Caller;
use grids::questions;
use refusals::Refusal;

// Questions 1, 2, 3, 6 and 7 of a grid and a further slice.
fn ask_grid(m: usize, n: usize, top: usize, grid: &[u8], other: &[u8]) -> Result<(), Refusal>
    ensures { asked_number result ≡ first_no (represent_questions m n top grid.now other.now) }
{
    questions::ask_shape(m, n, top, grid.len(), other.len())?;
    if !questions::is_capped(grid, top) {
        return Err(Refusal::Cell);
    }
    Ok(())
}

// The same questions of two grids: those of the first, and 7 of the second too.
fn ask_grids(m: usize, n: usize, top: usize, a: &[u8], b: &[u8]) -> Result<(), Refusal>
    ensures { asked_number result ≡ first_no (same_questions m n top a.now b.now) }
{
    ask_grid(m, n, top, a, b)?;
    if !questions::is_capped(b, top) {
        return Err(Refusal::Cell);
    }
    Ok(())
}

// The questions of represent. Rows that a caller does not admit pass question 1, so what it asks of them comes first here.
pub fn ask_represent<C: Caller<N>, const N: usize>(
    m: usize,
    n: usize,
    top: usize,
    grid: &[u8],
    out: &[u8],
) -> Result<(), Refusal>
    ensures asked { asked_number result ≡ first_no (C.questions m (represent_questions m n top grid.now out.now)) }
    ensures passed { asked_number result ≡ 0 → (m ≤ N) × (first_no (represent_questions m n top grid.now out.now) ≡ 0) }
{
    C::admit(m)?;
    ask_grid(m, n, top, grid, out)
}

// The questions of same, likewise.
pub fn ask_same<C: Caller<N>, const N: usize>(
    m: usize,
    n: usize,
    top: usize,
    a: &[u8],
    b: &[u8],
) -> Result<(), Refusal>
    ensures asked { asked_number result ≡ first_no (C.questions m (same_questions m n top a.now b.now)) }
    ensures passed { asked_number result ≡ 0 → (m ≤ N) × (first_no (same_questions m n top a.now b.now) ≡ 0) }
{
    C::admit(m)?;
    ask_grids(m, n, top, a, b)
}
