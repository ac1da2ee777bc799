// The lines of entries, each by the place of its first byte.
ghost use Rattle.std.specs.Prelude.{◌≡◌, true, ◌↔◌, ◌+◌, ◌≤◌, ◌<◌, length};
ghost use Rattle.layout.specs.Layout.{line_length, line_start};
ghost use Rattle.layout.specs.Lines.{EntriesLaid};
ghost use Rattle.scan.specs.Cells.{CellsLaid};
ghost use Rattle.scan.specs.Lines.{LineLaid, Follows, LinesLaid};

use crate::tables::Tables;
use crate::{holdings, laid, order};
use lines::entries::{WIDTH, line_length};
use lines::head;

// Whether a line is laid out, where its cells before cell `from` are.
fn line_laid(register: &[u8], at: usize, from: usize, tables: &Tables) -> bool
    requires { (1 ≤ at) × (at + line_length tables.now.size ≤ length register.now) × (from ≤ tables.now.size) × CellsLaid tables.now.top register.now at from }
    ensures { (result ≡ true) ↔ LineLaid tables.now.size tables.now.top register.now at }
{
    let size = tables.size;
    register[at + line_length(size) - 1] == b'\n'
        && holdings::holdings_laid(register, at + WIDTH * size)
        && laid::cells_laid(
            register,
            at + WIDTH * from - 1,
            WIDTH * (size - from),
            tables,
        )
}

// Whether a line is laid out and comes after one that is. The cells that agree with that one are not tested again.
fn next_laid(register: &[u8], previous: usize, at: usize, tables: &Tables) -> bool
    requires { (previous < at) × (at + line_length tables.now.size ≤ length register.now) × LineLaid tables.now.size tables.now.top register.now previous }
    ensures { (result ≡ true) ↔ Follows tables.now.size tables.now.top register.now previous at }
{
    let size = tables.size;
    let k = order::agreed(register, previous, at, WIDTH * size) / WIDTH;
    line_laid(register, at, k, tables) && order::comes_before(register, previous, at, k, size)
}

// Whether the first lines, one at least, are laid out, each of which comes before the next.
fn lines_laid(register: &[u8], count: usize, tables: &Tables) -> bool
    requires { (1 ≤ count) × (line_start tables.now.size count ≤ length register.now) }
    ensures { (result ≡ true) ↔ LinesLaid tables.now.size tables.now.top count register.now }
{
    if !line_laid(register, head::LENGTH, 0, tables) {
        return false;
    }
    let length = line_length(tables.size);
    for e in 1..count {
        let at = head::LENGTH + e * length;
        if !next_laid(register, at - length, at, tables) {
            return false;
        }
    }
    true
}

// Whether the first lines are lines of entries, each of which comes before the next.
pub fn entries_laid(register: &[u8], size: usize, top: u8, count: usize) -> bool
    requires { (size ≤ 128) × (top ≤ 15) × (line_start size count ≤ length register.now) }
    ensures { (result ≡ true) ↔ EntriesLaid size top count register.now }
{
    // No table is made where there is no line: a count in the smallest register takes a seventh fewer instructions.
    count == 0 || lines_laid(register, count, &Tables::new(size, top))
}
