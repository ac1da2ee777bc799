// What is asked before any command.
ghost use Rattle.std.specs.Prelude.{◌≡◌, true, ◌↔◌, ◌≤◌, length, take, MatchResult};
ghost use Rattle.layout.specs.Layout.{decode_shape};
ghost use Rattle.protocol.specs.Input.{shape_line};
ghost use Rattle.protocol.specs.Transcript.{start_no};
ghost use Rattle.refusals.specs.Numbers.{refusal_number};
ghost use Rattle.transcript.specs.Starts.{fault_number, Started};

use crate::start::Start;
use grids::questions;
use lines::{entries, head};
use refusals::Refusal;

// How many bytes the input and the register may have.
pub const MOST_BYTES: usize = 65536;

// Line 1 of the input has the first four numbers of a register's line 1, at the same places. Where its line feed stands, and how many
// bytes it has.
const FEED: usize = head::CAPACITY + head::WIDTH;

pub const LENGTH: usize = FEED + 1;

// The first no: the input is too long, a line is not laid as it should be, open would be refused, or the register is too long.
#[derive(Clone, Copy, Debug, PartialEq, Eq)]
pub enum Fault {
    LongInput,
    Malformed,
    Refused(Refusal),
    LongRegister,
}

// The number that is printed.
impl From<Fault> for u32 {
    ghost from_gives = { λ fault number. number ≡ fault_number fault };

    fn from(fault: Fault) -> u32 {
        match fault {
            Fault::LongInput => 11,
            Fault::Malformed => 12,
            Fault::Refused(refusal) => refusal.into(),
            Fault::LongRegister => 13,
        }
    }
}

impl From<Refusal> for Fault {
    ghost from_gives = { λ refusal result. fault_number result ≡ refusal_number refusal };

    fn from(refusal: Refusal) -> Fault {
        Fault::Refused(refusal)
    }
}

// Whether the input begins with a line 1 that is laid as it should be.
fn line_laid(input: &[u8]) -> bool
    requires { 25 ≤ length input.now }
    ensures { (result ≡ true) ↔ (take 25 input.now ≡ shape_line (decode_shape input.now)) }
{
    let mut line = [0; LENGTH];
    for at in [head::ROWS, head::COLUMNS, head::TOP, head::CAPACITY] {
        head::write_field(&mut line, at, head::read_field(input, at));
    }
    line[FEED] = b'\n';
    input.starts_with(&line)
}

// Asks 11, 12, 1 to 4 and 13 of the input.
pub fn check_input(input: &[u8]) -> Result<Start, Fault>
    ensures { MatchResult result (λ start. Started input.now start) (λ fault. fault_number fault ≡ start_no input.now) }
{
    if MOST_BYTES < input.len() {
        return Err(Fault::LongInput);
    }
    if input.len() < LENGTH || !line_laid(input) {
        return Err(Fault::Malformed);
    }
    let rows = head::read_field(input, head::ROWS);
    let columns = head::read_field(input, head::COLUMNS);
    let top = head::read_field(input, head::TOP);
    let capacity = head::read_field(input, head::CAPACITY);
    questions::ask_numbers(rows, columns, top, capacity)?;
    let length = entries::line_start(rows * columns, capacity);
    if MOST_BYTES < length {
        return Err(Fault::LongRegister);
    }
    Ok(Start {
        rows,
        columns,
        top,
        capacity,
        length,
    })
}
