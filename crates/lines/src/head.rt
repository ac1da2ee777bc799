// Line 1 of a register.
ghost use Rattle.std.specs.Prelude.{◌≡◌, ◌+◌, ◌<◌, ◌≤◌, length};
ghost use Rattle.layout.specs.Layout.{number_at, number_width, count_place, head_length, head_line};
ghost use Rattle.layout.specs.Lines.{with_field};
ghost use Rattle.lines.specs.Head.{shape_of, States};

use crate::numbers;

// How wide a number of line 1 is, where each of them and the line feed begin, and how many bytes line 1 has.
pub const WIDTH: usize = 6;

pub const ROWS: usize = 0 * WIDTH;

pub const COLUMNS: usize = 1 * WIDTH;

pub const TOP: usize = 2 * WIDTH;

pub const CAPACITY: usize = 3 * WIDTH;

pub const COUNT: usize = 4 * WIDTH;

const FEED: usize = 5 * WIDTH;

pub const LENGTH: usize = FEED + 1;

// The numbers of line 1.
#[derive(Clone, Copy)]
pub struct Head {
    pub rows: usize,
    pub columns: usize,
    pub top: usize,
    pub capacity: usize,
    pub count: usize,
}

// The number that the field from a place on states.
pub fn read_field(bytes: &[u8], at: usize) -> usize
    requires { at + number_width ≤ length bytes.now }
    ensures { (result ≡ number_at number_width at bytes.now) × (result < 100000000) }
{
    numbers::read_number(&bytes[at..at + WIDTH])
}

// The numbers that line 1 states.
pub fn read_head(register: &[u8]) -> Head
    requires { head_length ≤ length register.now }
    ensures { States register.now result }
{
    Head {
        rows: read_field(register, ROWS),
        columns: read_field(register, COLUMNS),
        top: read_field(register, TOP),
        capacity: read_field(register, CAPACITY),
        count: read_field(register, COUNT),
    }
}

// Writes a number into the field from a place on.
pub fn write_field(out: &mut [u8], at: usize, number: usize)
    requires { at + number_width ≤ length out.old }
    ensures { out.new ≡ with_field at number out.old }
{
    numbers::write_number(&mut out[at..at + WIDTH], number);
}

// Writes line 1 over all of a slice of its length.
pub fn write_head(out: &mut [u8], head: Head)
    requires { length out.old ≡ head_length }
    ensures { out.new ≡ head_line (shape_of head) head.count }
{
    write_field(out, ROWS, head.rows);
    write_field(out, COLUMNS, head.columns);
    write_field(out, TOP, head.top);
    write_field(out, CAPACITY, head.capacity);
    write_field(out, COUNT, head.count);
    out[FEED] = b'\n';
}

// Writes the count alone.
pub fn write_count(register: &mut [u8], count: usize)
    requires { head_length ≤ length register.old }
    ensures { register.new ≡ with_field count_place count register.old }
{
    write_field(register, COUNT, count);
}
