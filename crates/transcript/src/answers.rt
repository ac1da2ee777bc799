// The lines that are printed for command lines.
ghost use Rattle.transcript.specs.Answers.{Answers, Answered, Runs};

use crate::input::line_end;
use crate::reports::Report;
use crate::start::Start;
use crate::starts::Fault;
use crate::{commands, reports, starts};

// Answers a command line on a register. Returns what is printed for it.
fn answer_line(line: &[u8], start: Start, register: &mut [u8]) -> Report
    ensures { Answers start.rows start.columns start.top line.now register.old register.new result }
{
    let size = start.size();
    let mut cells = [0; 256];
    let Some(command) = commands::read_command(line, size, &mut cells) else {
        return Report::refusing(Fault::Malformed.into());
    };
    let placed = commands::make_call(register, start, command, &cells[..command.cell_count(size)]);
    Report {
        command: Some(command),
        number: placed.number,
        place: placed.place,
    }
}

// Answers the lines of the input from the second on, and writes what is printed for them over the first bytes of a slice. Returns
// how many bytes that is.
pub fn answer_lines(input: &[u8], start: Start, register: &mut [u8], out: &mut [u8]) -> usize
    requires { Runs input.now start.rows start.columns start.top register.old out.old }
    ensures { Answered input.now register.new out.old out.new result }
{
    let mut at = starts::LENGTH;
    let mut printed = 0;
    // A step is as long as a line, so this is no loop over a range.
    while at < input.len() {
        let end = line_end(input, at);
        let report = answer_line(&input[at..end], start, register);
        reports::write_report(&mut out[printed..], report);
        printed += reports::LENGTH;
        at = end;
    }
    printed
}
