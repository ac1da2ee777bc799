// The place of a grid among the entries.
ghost use Rattle.std.specs.Prelude.{◌≡◌, [], ◌&&◌, ◌<◌, length, get_or, ltb};
ghost use Rattle.grids.specs.Order.{equal};
ghost use Rattle.grids.specs.Comparisons.{compared};
ghost use Rattle.layout.specs.Layout.{grids_of, decode};
ghost use Rattle.calls.specs.Places.{Lower, Between};
ghost use Rattle.calls.specs.Valid.{Valid};
ghost use Rattle.register.specs.Spans.{Halved};

use grids::comparisons;
use lines::entries;
use std::cmp::Ordering;

// What comparing the grid of a line's entry with a grid finds.
fn compare_entry(register: &[u8], e: usize, count: usize, grid: &[u8]) -> Ordering
    requires { Valid (length grid.now) count register.now × (e < count) }
    ensures { result ≡ compared (get_or (grids_of (decode register.now).entries) e []) grid.now }
{
    let size = grid.len();
    let width = entries::line_length(size);
    let start = entries::line_start(size, e);
    let end = start + width;
    let mut cells = [0u8; 128];
    entries::read_line(&register[start..end], &mut cells[0..size]);
    comparisons::compare_grids(&cells[0..size], grid).found
}

// The lines among which a place is sought.
#[derive(Clone, Copy)]
pub struct Span {
    pub low: usize,
    pub high: usize,
}

// The half of a span in which the place of the grid is.
fn halved(register: &[u8], count: usize, span: Span, grid: &[u8]) -> Span
    requires { Valid (length grid.now) count register.now × Between (grids_of (decode register.now).entries) grid.now span.low span.high × (span.low < span.high) }
    ensures { Halved (grids_of (decode register.now).entries) grid.now span result }
{
    let middle = span.low + (span.high - span.low) / 2;
    if compare_entry(register, middle, count, grid).is_lt() {
        Span {
            low: middle + 1,
            high: span.high,
        }
    } else {
        Span {
            low: span.low,
            high: middle,
        }
    }
}

// How many entries come before the grid, by halving.
pub fn lower_bound(register: &[u8], count: usize, grid: &[u8]) -> usize
    requires { Valid (length grid.now) count register.now }
    ensures { Lower (grids_of (decode register.now).entries) grid.now result }
{
    let mut span = Span {
        low: 0,
        high: count,
    };
    // Each turn halves what is left, so this is no loop over a range; the entries are bytes and no slice of theirs can be searched.
    while span.low < span.high {
        span = halved(register, count, span, grid);
    }
    span.low
}

// Whether the entry of a line, if there is one, has the grid.
pub fn is_entry(register: &[u8], count: usize, e: usize, grid: &[u8]) -> bool
    requires { Valid (length grid.now) count register.now }
    ensures { result ≡ (ltb e count && equal (get_or (grids_of (decode register.now).entries) e []) grid.now) }
{
    if count <= e {
        return false;
    }
    compare_entry(register, e, count, grid).is_eq()
}
