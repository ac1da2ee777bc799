// Standard output, written whole.
use crate::waiting::Tries;
use std::io;
use std::io::{ErrorKind, Write};
use std::time::Clock;

// Writes all of a slice to standard output, or returns the error of a write that failed, and was not or no longer to be
// made again.
pub fn write_output(rt: &(impl Print + Clock), out: &[u8]) -> io::Result<()> {
    let mut writer = io::writer(rt);
    let mut put = 0;
    let mut tries = Tries::new();
    // How far a turn goes is known after its write.
    while put < out.len() {
        match writer.write(&out[put..]) {
            Ok(0) => return Err(io::Error::new(ErrorKind::WriteZero, "nothing more was written")),
            Ok(more) => put += more,
            Err(error) => tries.again(rt, error)?,
        }
    }
    Ok(())
}
