// The questions that the calls share.
ghost use Rattle.std.specs.Prelude.{◌≡◌};
ghost use Rattle.grids.specs.Grids.{capped};
ghost use Rattle.grids.specs.Asked.{limits_no, numbers_no, shape_no};
ghost use Rattle.grids.specs.Questions.{question14};
ghost use Rattle.refusals.specs.Numbers.{asked_number};

use refusals::Refusal;

// Questions 1, 2 and 3.
pub fn ask_limits(m: usize, n: usize, top: usize) -> Result<(), Refusal>
    ensures { asked_number result ≡ limits_no m n top }
{
    if m < 1 || 8 < m {
        return Err(Refusal::Rows);
    }
    if n < 1 || 16 < n {
        return Err(Refusal::Columns);
    }
    if 15 < top {
        return Err(Refusal::Top);
    }
    Ok(())
}

// Questions 1, 2, 3 and 6, of two slices' lengths.
pub fn ask_shape(m: usize, n: usize, top: usize, first: usize, second: usize) -> Result<(), Refusal>
    ensures { asked_number result ≡ shape_no m n top first second }
{
    ask_limits(m, n, top)?;
    if first != m * n || second != m * n {
        return Err(Refusal::Length);
    }
    Ok(())
}

// Questions 1, 2, 3 and 4.
pub fn ask_numbers(m: usize, n: usize, top: usize, capacity: usize) -> Result<(), Refusal>
    ensures { asked_number result ≡ numbers_no m n top capacity }
{
    ask_limits(m, n, top)?;
    if capacity < 1 || 500 < capacity {
        return Err(Refusal::Capacity);
    }
    Ok(())
}

// Question 14: whether a terminal's rows are other than 6 to 8.
pub fn fits_terminal(m: usize) -> bool
    ensures { result ≡ (question14 m).answer }
{
    m < 6 || 8 < m
}

// Question 7 of one slice: whether every cell is at most top.
pub fn is_capped(cells: &[u8], top: usize) -> bool
    ensures { result ≡ capped top cells.now }
{
    // no way out of the loop, so that many cells are looked at together
    let mut greatest = 0u8;
    for cell in cells {
        greatest = greatest.max(*cell);
    }
    greatest as usize <= top
}
