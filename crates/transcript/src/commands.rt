// Command lines.
ghost use Rattle.std.specs.Prelude.{◌≡◌, ℕ, true, false, ◌↔◌, ◌*◌, ◌≤◌, length, take, MatchOption};
ghost use Rattle.layout.specs.Layout.{fields, number_at};
ghost use Rattle.machine.specs.CallLists.{register_calls};
ghost use Rattle.calls.specs.Calls.{placed};
ghost use Rattle.protocol.specs.Input.{cell_count, leads, lead_length, client_in, is_laid};
ghost use Rattle.protocol.specs.Readings.{read_command, answered_by};
ghost use Rattle.transcript.specs.Commands.{command_number, client_of, States, CommandRead, Parts, PrunesParted};

use crate::fields;
use crate::start::Start;
use bounds::counted::Counted;
use bounds::prune;
use lines::entries::WIDTH;
use lines::head;
use register::answers::Placed;
use register::{counts, entering, striking};

// What a line asks: that a grid be entered, or struck, for a client, or that the entries within bounds be counted.
#[derive(Clone, Copy)]
pub enum Command {
    Enter(usize),
    Strike(usize),
    Count,
}

impl Command {
    // The number that states it.
    pub fn number(self) -> usize
        ensures { result ≡ command_number self }
    {
        match self {
            Command::Enter(_) => 1,
            Command::Strike(_) => 2,
            Command::Count => 3,
        }
    }

    // How many cells it has, of grids with so many: low and high of each for a count.
    pub fn cell_count(self, size: usize) -> usize
        requires { size ≤ 128 }
        ensures { (result ≡ cell_count size (command_number self)) × (result ≤ 256) }
    {
        match self {
            Command::Enter(_) | Command::Strike(_) => size,
            Command::Count => 2 * size,
        }
    }

    // How many bytes stand before its cells: its field, and the client's but for a count.
    fn lead_length(self) -> usize
        ensures { (result ≡ lead_length (command_number self)) × (6 ≤ result) × (result ≤ 12) }
    {
        match self {
            Command::Enter(_) | Command::Strike(_) => 2 * head::WIDTH,
            Command::Count => head::WIDTH,
        }
    }
}

// The client that a line states, if it is long enough.
fn read_client(line: &[u8]) -> Option<usize>
    ensures { MatchOption result (length line.now ≤ 11) (λ client. client ≡ number_at 6 6 line.now) }
{
    if line.len() < 2 * head::WIDTH {
        return None;
    }
    Some(head::read_field(line, head::WIDTH))
}

// The command that a line states, if it states one.
fn read_lead(line: &[u8]) -> Option<Command>
    ensures { MatchOption result ((size : ℕ) → is_laid size line.now ≡ false) (λ command. States line.now command) }
{
    if line.len() < head::WIDTH {
        return None;
    }
    match head::read_field(line, 0) {
        1 => Some(Command::Enter(read_client(line)?)),
        2 => Some(Command::Strike(read_client(line)?)),
        3 => Some(Command::Count),
        _ => None,
    }
}

// Whether what stands before the cells of a line is laid as it should be.
fn lead_laid(line: &[u8], command: Command) -> bool
    requires { States line.now command × (lead_length (command_number command) ≤ length line.now) }
    ensures { (result ≡ true) ↔ (take (lead_length (command_number command)) line.now ≡ fields 6 (leads (command_number command) (client_in line.now))) }
{
    let first = fields::is_field(&line[..head::WIDTH], command.number());
    match command {
        Command::Enter(client) | Command::Strike(client) => {
            first && fields::is_field(&line[head::WIDTH..2 * head::WIDTH], client)
        }
        Command::Count => first,
    }
}

// The command of a line that is laid as it should be, with its cells written to the front of a slice.
pub fn read_command(line: &[u8], size: usize, cells: &mut [u8]) -> Option<Command>
    requires { (size ≤ 128) × (length cells.old ≡ 256) }
    ensures { MatchOption result (is_laid size line.now ≡ false) (λ command. CommandRead size line.now cells.new command) }
{
    let command = read_lead(line)?;
    let lead = command.lead_length();
    let count = command.cell_count(size);
    let end = lead + WIDTH * count;
    if line.len() == end + 1
        && line[end] == b'\n'
        && lead_laid(line, command)
        && fields::read_cells(&line[lead..end], &mut cells[..count])
    {
        Some(command)
    } else {
        None
    }
}

// Parts cells that hold low and high in turn.
fn part(cells: &[u8], low: &mut [u8], high: &mut [u8])
    requires { (length low.old ≤ 128) × (length high.old ≡ length low.old) × (length cells.now ≡ 2 * length low.old) }
    ensures { Parts cells.now (length low.old) low.new high.new }
{
    for i in 0..low.len() {
        low[i] = cells[2 * i];
        high[i] = cells[2 * i + 1];
    }
}

// Parts cells that hold low and high in turn, and prunes these bounds. Returns prune's number: what is printed holds document 01's numbers,
// and `read_command` and `report` speak of them, so here they are no Result any more.
fn prune_parted(start: Start, cells: &[u8], low: &mut [u8], high: &mut [u8]) -> u32
    requires { (length low.old ≡ start.rows * start.columns) × (length high.old ≡ length low.old) × (length cells.now ≡ 2 * length low.old) }
    ensures { PrunesParted start.rows start.columns start.top cells.now result low.new high.new }
{
    part(cells, low, high);
    let pruned: Counted = prune::prune(start.rows, start.columns, start.top, low, high).into();
    pruned.number
}

// Prunes the bounds that cells hold in turn, and where prune's number is 0 counts the entries within what it leaves; the count stands
// in the place of a place.
fn count_pruned(register: &[u8], start: Start, cells: &[u8]) -> Placed
    requires { length cells.now ≡ 2 * (start.rows * start.columns) }
    ensures { placed result.number result.place register.now ≡ answered_by register_calls register.now (read_command start.rows start.columns start.top 3 0 cells.now) }
{
    let size = start.size();
    let mut low = [0; 128];
    let mut high = [0; 128];
    let number = prune_parted(start, cells, &mut low[..size], &mut high[..size]);
    if number != 0 {
        return Placed { number, place: 0 };
    }
    let found: Counted = counts::count(register, &low[..size], &high[..size]).into();
    Placed {
        number: found.number,
        place: found.count,
    }
}

// Answers a command with its cells.
pub fn make_call(register: &mut [u8], start: Start, command: Command, cells: &[u8]) -> Placed
    requires { length cells.now ≡ cell_count (start.rows * start.columns) (command_number command) }
    ensures { placed result.number result.place register.new ≡ answered_by register_calls register.old (read_command start.rows start.columns start.top (command_number command) (client_of command) cells.now) }
{
    match command {
        Command::Enter(client) => entering::enter(register, client, cells).into(),
        Command::Strike(client) => striking::strike(register, client, cells).into(),
        Command::Count => count_pruned(register, start, cells),
    }
}
