// The holdings of an entry's line, read and written. The part of the register from the line's first byte onward is lent.
ghost use Rattle.std.specs.Prelude.{◌≡◌, ◌+◌, ◌-◌, ◌*◌, ◌<◌, ◌≤◌, ◌++◌, length, take, drop};
ghost use Rattle.layout.specs.Decimal.{field};
ghost use Rattle.layout.specs.Layout.{clients, cell_width, line_length, holdings_of, holding, changed, some_held};

use crate::entries::{CLIENTS, WIDTH};
use crate::numbers;

// Where a client's holding begins, in the line of an entry with so many cells. A client is a number, as C and the register's calls have it.
fn place(size: usize, client: usize) -> usize
    requires { (size ≤ 128) × (1 ≤ client) × (client ≤ clients) }
    ensures { result ≡ cell_width * (size + (client - 1)) }
{
    WIDTH * (size + (client - 1))
}

// What a client holds of an entry with so many cells.
pub fn read_holding(line: &[u8], size: usize, client: usize) -> usize
    requires { (size ≤ 128) × (1 ≤ client) × (client ≤ clients) × (line_length size ≤ length line.now) }
    ensures { (result ≡ holding client (holdings_of size line.now)) × (result < 100000) }
{
    let at = place(size, client);
    numbers::read_number(&line[at..at + WIDTH])
}

// Writes what a client holds of it.
pub fn write_holding(part: &mut [u8], size: usize, client: usize, number: usize)
    requires { (size ≤ 128) × (1 ≤ client) × (client ≤ clients) × (line_length size ≤ length part.old) }
    ensures { part.new ≡ take (cell_width * (size + (client - 1))) part.old ++ (field cell_width number ++ drop cell_width (drop (cell_width * (size + (client - 1))) part.old)) }
{
    let at = place(size, client);
    numbers::write_number(&mut part[at..at + WIDTH], number);
}

// What another client, or this one, holds once this client's holding is `left`.
fn holding_after(line: &[u8], size: usize, client: usize, left: usize, other: usize) -> usize
    requires { (size ≤ 128) × (1 ≤ client) × (client ≤ clients) × (1 ≤ other) × (other ≤ clients) × (line_length size ≤ length line.now) }
    ensures { result ≡ holding other (changed client left (holdings_of size line.now)) }
{
    if other == client {
        left
    } else {
        read_holding(line, size, other)
    }
}

// Whether anyone holds the entry once this client's holding is `left`.
pub fn still_held(line: &[u8], size: usize, client: usize, left: usize) -> bool
    requires { (size ≤ 128) × (1 ≤ client) × (client ≤ clients) × (line_length size ≤ length line.now) }
    ensures { result ≡ some_held (changed client left (holdings_of size line.now)) }
{
    for other in 1..=CLIENTS {
        if 0 < holding_after(line, size, client, left, other) {
            return true;
        }
    }
    false
}
