// The program planbook: reads standard input, up to one byte over its limit, and writes what is printed for it. Where
// standard input or standard output fails it says so to standard error, and prints nothing for an input read in part.
#![tactic(auto)]

mod reading;
mod waiting;
mod writing;

ghost use Rattle.std.specs.Prelude.{◌≡◌, true, ◌≤◌, length, take};
ghost use Rattle.std.specs.Process.{exit_status};
ghost use Rattle.protocol.specs.Transcript.{transcript};
ghost use Rattle.protocol.specs.Programs.{has_room};

use reading::read_input;
use std::alloc::{AllocError, Global};
use std::io;
use std::process::ExitCode;
use std::time::Clock;
use transcript::run;
use writing::write_output;

// Room for the input and for the byte that makes it too long, for the register, and for all that is printed.
const INPUT: usize = 65537;

const REGISTER: usize = 65536;

const OUTPUT: usize = 1310720;

// So many bytes of room.
fn room<const N: usize>() -> [u8; N]
    ensures { N ≡ length result }
{
    [0; N]
}

// Writes what is printed for the input over the first bytes of a slice. Returns how many bytes that is.
fn print_into(input: &[u8], register: &mut [u8], out: &mut [u8]) -> usize
    requires { has_room register.old out.old ≡ true }
    ensures { (result ≤ length out.new) × (take result out.new ≡ transcript input.now) }
{
    run::transcribe(input, register, out)
}

// The reason that the system gives for a failure, in words alone, without its number.
fn reason(alloc: Global, error: io::Error) -> Result<String, AllocError> {
    let text = format!(in alloc; "{error}")?;
    match text.split_once(" (os error ") {
        Some((words, _)) => String::from_str(alloc, words),
        None => Ok(text),
    }
}

// Says on standard error what failed, and why. Where that fails, there is nobody left to tell.
fn fail(rt: &(impl Eprint + AllocGlobal), what: &str, error: io::Error) -> ExitCode
    ensures { exit_status result ≡ 1 }
{
    let _ = match reason(rt.alloc(), error) {
        Ok(why) => eprintln!(rt; "{what}: {why}"),
        Err(_) => eprintln!(rt; "{what}: {error}"),
    };
    ExitCode::FAILURE
}

// Writes what is printed for the input to standard output, or says why it cannot.
fn print(rt: &(impl Print + Eprint + Clock + AllocGlobal), input: &[u8]) -> ExitCode {
    let mut register = room::<REGISTER>();
    let mut out = room::<OUTPUT>();
    let printed = print_into(input, &mut register, &mut out);
    match write_output(rt, &out[..printed]) {
        Ok(()) => ExitCode::SUCCESS,
        Err(error) => fail(
            rt,
            "planbook: standard output could not be written, what was printed is not whole",
            error,
        ),
    }
}

fn main(rt: HostRuntime) -> ExitCode {
    let mut input = room::<INPUT>();
    match read_input(&rt, &mut input) {
        Ok(got) => print(&rt, &input[..got]),
        Err(error) => fail(
            &rt,
            "planbook: standard input could not be read, nothing is printed",
            error,
        ),
    }
}
