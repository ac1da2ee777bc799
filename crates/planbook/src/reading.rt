// Standard input, read to its end.
ghost use Rattle.std.specs.Prelude.{◌<◌, ◌≤◌, length, IfOk};
ghost use Rattle.protocol.specs.Transcript.{byte_limit};

use crate::waiting::Tries;
use std::io;
use std::io::Read;
use std::time::Clock;

// Reads standard input into a slice with room for a byte over the limit, up to its end or that of the slice. Returns how many
// bytes that is, or the error of a read that failed, and was not or no longer to be made again.
pub fn read_input(rt: &(impl Input + Clock), input: &mut [u8]) -> io::Result<usize>
    requires { byte_limit < length input.old }
    ensures { IfOk result (λ got. got ≤ length input.new) }
{
    let mut reader = rt.reader();
    let mut got = 0;
    let mut tries = Tries::new();
    // How far a turn goes is known after its read.
    while got < input.len() {
        match reader.read(&mut input[got..]) {
            Ok(0) => return Ok(got),
            Ok(more) => got += more,
            Err(error) => tries.again(rt, error)?,
        }
    }
    Ok(got)
}
