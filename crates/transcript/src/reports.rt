// Printed lines.
ghost use Rattle.std.specs.Prelude.{◌≡◌, ◌++◌, ◌≤◌, length, drop};
ghost use Rattle.protocol.specs.Commands.{report};
ghost use Rattle.transcript.specs.Commands.{printed_command};

use crate::commands::Command;
use lines::head;

// How many bytes a printed line has.
pub const LENGTH: usize = 3 * head::WIDTH + 1;

// What a printed line states: the command, if there is one; the number; and the place or count.
#[derive(Clone, Copy)]
pub struct Report {
    pub command: Option<Command>,
    pub number: u32,
    pub place: u32,
}

impl Report {
    // A no, before any command or to a line that states none.
    pub fn refusing(number: u32) -> Report
        ensures { (result.command ≡ None) × (result.number ≡ number) × (result.place ≡ 0) }
    {
        Report {
            command: None,
            number,
            place: 0,
        }
    }
}

// The number that is printed for a command: 0 where there is none.
fn printed(command: Option<Command>) -> usize
    ensures { result ≡ printed_command command }
{
    match command {
        Some(command) => command.number(),
        None => 0,
    }
}

// Writes a printed line over the first bytes of a slice.
pub fn write_report(out: &mut [u8], line: Report)
    requires { 19 ≤ length out.old }
    ensures { out.new ≡ report (printed_command line.command) line.number line.place ++ drop 19 out.old }
{
    head::write_field(out, 0, printed(line.command));
    head::write_field(out, head::WIDTH, line.number as usize);
    head::write_field(out, 2 * head::WIDTH, line.place as usize);
    out[LENGTH - 1] = b'\n';
}
