// How many entries lie within bounds: each line is tested by the bytes of its cells, in a loop without a jump.
ghost use Rattle.std.specs.Prelude.{◌≡◌, ◌≤◌, ◌<◌, length};
ghost use Rattle.permutations.specs.Lists.{select};
ghost use Rattle.grids.specs.Order.{rank};
ghost use Rattle.bounds.specs.Bounds.{IsBounds, in_bounds};
ghost use Rattle.layout.specs.Layout.{grids_of, decode_shape, decode};
ghost use Rattle.calls.specs.Valid.{Valid};
ghost use Rattle.lines.specs.Bytes.{stated};
ghost use Rattle.counting.specs.Within.{passes, LineOutcome};

use crate::tables::Tables;
use grids::cells;
use lines::bytes::{above, stated};
use lines::entries;

// Whether a byte passes.
fn passes(byte: u8, before: u8, low: u8, span: u8) -> bool
    ensures { (result ≡ passes byte before low span) × (rank (stated byte before) < 256) }
{
    above(cells::rank(stated(byte, before)), low) <= span
}

// Whether every byte of a line's cells passes; before has the bytes that begin one earlier.
fn line_within(line: &[u8], before: &[u8], tables: &Tables) -> bool
    requires { (length line.now ≤ 384) × (length line.now ≤ length before.now) }
    ensures { LineOutcome result (length line.now) line.now before.now tables.now.lows tables.now.spans }
{
    let mut within = true;
    for k in 0..line.len() {
        within &= passes(line[k], before[k], tables.lows[k], tables.spans[k]);
    }
    within
}

// How many entries lie within bounds.
pub fn count_within(register: &[u8], count: usize, low: &[u8], high: &[u8]) -> usize
    requires { Valid (length low.now) count register.now × IsBounds (length low.now) (decode_shape register.now).top low.now high.now }
    ensures { result ≡ length (select (in_bounds (length low.now) (decode_shape register.now).top low.now high.now) (grids_of (decode register.now).entries)) }
{
    let size = low.len();
    let tables = Tables::new(low, high);
    let mut found = 0;
    for e in 0..count {
        let from = entries::line_start(size, e);
        let end = from + entries::WIDTH * size;
        if line_within(&register[from..end], &register[from - 1..end - 1], &tables) {
            found += 1;
        }
    }
    found
}
