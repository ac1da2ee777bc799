// The lines of the input.
ghost use Rattle.std.specs.Prelude.{◌<◌, length};
ghost use Rattle.transcript.specs.Lines.{NextLine};

use memchr::memchr;

// Where the line that begins at a place ends: behind its line feed, or with the input.
pub fn line_end(input: &[u8], at: usize) -> usize
    requires { at < length input.now }
    ensures { NextLine input.now at result }
{
    match memchr(b'\n', &input[at..]) {
        Some(found) => at + found + 1,
        None => input.len(),
    }
}
