// The call open.
ghost use Rattle.std.specs.Prelude.{◌≡◌, [], length};
ghost use Rattle.layout.specs.Layout.{layout, layout_length, InLimits};
ghost use Rattle.calls.specs.Calls.{opened, placed, shape};
ghost use Rattle.calls.specs.Valid.{open_no};
ghost use Rattle.refusals.specs.Numbers.{asked_number};

use grids::questions;
use lines::head::Head;
use lines::{entries, head};
use refusals::Refusal;

// Questions 1, 2, 3, 4 and 6 of open.
fn ask_open(m: usize, n: usize, top: usize, capacity: usize, length: usize) -> Result<(), Refusal>
    ensures { asked_number result ≡ open_no (shape m n top capacity) length }
{
    questions::ask_numbers(m, n, top, capacity)?;
    if length != entries::line_start(m * n, capacity) {
        return Err(Refusal::Length);
    }
    Ok(())
}

// Writes a register without entries over all of a slice of its length.
fn write_empty(m: usize, n: usize, top: usize, capacity: usize, register: &mut [u8])
    requires { InLimits (shape m n top capacity) × (length register.old ≡ layout_length (shape m n top capacity)) }
    ensures { register.new ≡ layout (record { shape = shape m n top capacity; entries = [] }) }
{
    let size = m * n;
    head::write_head(
        &mut register[..head::LENGTH],
        Head {
            rows: m,
            columns: n,
            top,
            capacity,
            count: 0,
        },
    );
    for e in 0..capacity {
        let start = entries::line_start(size, e);
        entries::write_blank(&mut register[start..], size);
    }
}

// Opens a register without entries. Where a question gets a no, the slice is as it was.
pub fn open_register(
    m: usize,
    n: usize,
    top: usize,
    capacity: usize,
    register: &mut [u8],
) -> Result<(), Refusal>
    ensures { placed (asked_number result) 0 register.new ≡ opened (shape m n top capacity) register.old }
{
    ask_open(m, n, top, capacity, register.len())?;
    write_empty(m, n, top, capacity, register);
    Ok(())
}
