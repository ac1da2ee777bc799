// The whole run.
ghost use Rattle.std.specs.Prelude.{◌≡◌};
ghost use Rattle.protocol.specs.Programs.{transcribed, transcribing};
ghost use Rattle.transcript.specs.Runs.{Ran, Ready};

use crate::reports::Report;
use crate::start::Start;
use crate::starts::MOST_BYTES;
use crate::{answers, reports, starts};
use register::opening;

// How many bytes there is room for in the output.
const MOST_PRINTED: usize = 1310720;

// Opens the register over all of a slice of its length, answers the command lines, and writes what is printed over the first bytes of
// another slice. Returns how many bytes that is.
fn run(input: &[u8], start: Start, register: &mut [u8], out: &mut [u8]) -> usize
    requires { Ready input.now start register.old out.old }
    ensures { Ran input.now register.new out.old out.new result }
{
    // what open asks got a yes before
    let _ = opening::open_register(
        start.rows,
        start.columns,
        start.top,
        start.capacity,
        register,
    );
    let printed = answers::answer_lines(input, start, register, out);
    let end = printed + register.len();
    out[printed..end].copy_from_slice(register);
    end
}

// Writes what planbook prints for an input over the first bytes of a slice, and returns how many bytes that is. The register is kept
// at the front of another slice. Where that has fewer than 65,536 bytes, or the output slice fewer than 1,310,720, it returns 0
// and writes nothing. The count is that of `transcribed`, on which `planbook` rests, so it is no `Option`.
pub fn transcribe(input: &[u8], register: &mut [u8], out: &mut [u8]) -> usize
    ensures { transcribing result register.new out.new ≡ transcribed input.now register.old out.old }
{
    if register.len() < MOST_BYTES || out.len() < MOST_PRINTED {
        return 0;
    }
    match starts::check_input(input) {
        Ok(start) => run(input, start, &mut register[..start.length], out),
        Err(fault) => {
            reports::write_report(out, Report::refusing(fault.into()));
            reports::LENGTH
        }
    }
}
