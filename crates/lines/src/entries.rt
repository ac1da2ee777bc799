// The lines of entries: their length and place, read, written, put in and taken out. The part of the register from a line's first
// byte onward is lent.
ghost use Rattle.std.specs.Prelude.{◌≡◌, ◌+◌, ◌*◌, ◌≤◌, ◌++◌, length, take, drop};
ghost use Rattle.layout.specs.Layout.{clients, cell_width, fields, head_length, line_length, line_start, entry_line, blank_line, cells_of};
ghost use Rattle.layout.specs.Lines.{first_entry, EntryLine};

use crate::{head, numbers};

// How wide a cell or a holding is, how many clients have a holding, and the most that one of them can hold of a class.
pub const WIDTH: usize = 3;

pub const CLIENTS: usize = 8;

pub const MOST_HELD: usize = 999;

// How many bytes the longest line has.
pub const LONGEST: usize = WIDTH * (128 + CLIENTS) + 1;

// How many bytes the line of an entry with so many cells has, the line feed included.
pub fn line_length(size: usize) -> usize
    requires { size ≤ 128 }
    ensures { (result ≡ line_length size) × (result ≤ 409) }
{
    WIDTH * (size + CLIENTS) + 1
}

// Where line e of the entries begins, the first being 0. At the capacity that is how many bytes the register has.
pub fn line_start(size: usize, e: usize) -> usize
    requires { (size ≤ 128) × (e ≤ 500) }
    ensures { (result ≡ line_start size e) × (result ≤ head_length + 204500) }
{
    head::LENGTH + e * line_length(size)
}

// Reads the cells of an entry's line.
pub fn read_line(line: &[u8], cells: &mut [u8])
    requires { (length cells.old ≤ 128) × EntryLine (length cells.old) 15 line.now }
    ensures { cells.new ≡ cells_of (length cells.old) line.now }
{
    for (k, cell) in cells.iter_mut().enumerate() {
        let at = WIDTH * k;
        // it is 15 at most: `try_from` would have an arm that is never taken
        *cell = numbers::read_number(&line[at..at + WIDTH]) as u8;
    }
}

// Writes numbers into the fields from the first byte onward.
fn write_fields(part: &mut [u8], numbers: &[u8])
    requires { (length numbers.now ≤ 128) × (cell_width * length numbers.now ≤ length part.old) }
    ensures { part.new ≡ fields cell_width numbers.now ++ drop (cell_width * length numbers.now) part.old }
{
    for (k, number) in numbers.iter().enumerate() {
        let at = WIDTH * k;
        numbers::write_number(&mut part[at..at + WIDTH], usize::from(*number));
    }
}

// Writes the line of a new entry, which this client alone holds, once, from its first byte onward.
fn write_line(part: &mut [u8], grid: &[u8], client: usize)
    requires { (length grid.now ≤ 128) × (1 ≤ client) × (client ≤ clients) × (line_length (length grid.now) ≤ length part.old) }
    ensures { part.new ≡ entry_line (first_entry client grid.now) ++ drop (line_length (length grid.now)) part.old }
{
    let mut holdings = [0; CLIENTS];
    holdings[client - 1] = 1;
    write_fields(part, grid);
    write_fields(&mut part[WIDTH * grid.len()..], &holdings);
    part[line_length(grid.len()) - 1] = b'\n';
}

// Writes a blank line from its first byte onward.
pub fn write_blank(part: &mut [u8], size: usize)
    requires { (size ≤ 128) × (line_length size ≤ length part.old) }
    ensures { part.new ≡ blank_line size ++ drop (line_length size) part.old }
{
    let end = line_length(size) - 1;
    part[..end].fill(b' ');
    part[end] = b'\n';
}

// Puts the line of a new entry, which this client alone holds, once, in at its first byte: so many bytes from there on move on by one
// line, over what stands behind them.
pub fn insert_line(part: &mut [u8], moved: usize, grid: &[u8], client: usize)
    requires { (length grid.now ≤ 128) × (1 ≤ client) × (client ≤ clients) × (moved + line_length (length grid.now) ≤ length part.old) }
    ensures { part.new ≡ entry_line (first_entry client grid.now) ++ (take moved part.old ++ drop (moved + line_length (length grid.now)) part.old) }
{
    let by = line_length(grid.len());
    part.copy_within(..moved, by);
    write_line(part, grid, client);
}

// Takes the line at the first byte out: so many bytes behind it move back by one line, and a blank line follows them.
pub fn remove_line(part: &mut [u8], moved: usize, size: usize)
    requires { (size ≤ 128) × (moved + line_length size ≤ length part.old) }
    ensures { part.new ≡ take moved (drop (line_length size) part.old) ++ (blank_line size ++ drop (moved + line_length size) part.old) }
{
    let by = line_length(size);
    part.copy_within(by..by + moved, 0);
    write_blank(&mut part[moved..], size);
}
