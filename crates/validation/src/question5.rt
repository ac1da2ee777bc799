// Question 5.
ghost use Rattle.std.specs.Prelude.{◌≡◌, true, ◌↔◌, ◌≤◌, length, take};
ghost use Rattle.layout.specs.Layout.{head_length, head_line, laid_out};
ghost use Rattle.lines.specs.Head.{shape_of};
ghost use Rattle.validation.specs.Limits.{WithinLimits};

use crate::blanks;
use grids::questions;
use lines::head::{Head, LENGTH};
use lines::{entries, head};

// Whether the numbers of line 1 are within the limits, and the count is at most the capacity.
fn within_limits(head: Head) -> bool
    ensures { (result ≡ true) ↔ WithinLimits head.rows head.columns head.top head.capacity head.count }
{
    match questions::ask_numbers(head.rows, head.columns, head.top, head.capacity) {
        Ok(()) => head.count <= head.capacity,
        Err(_) => false,
    }
}

// Whether the first line is line 1 of these numbers.
fn head_laid(register: &[u8], head: Head) -> bool
    requires { head_length ≤ length register.now }
    ensures { (result ≡ true) ↔ (take head_length register.now ≡ head_line (shape_of head) head.count) }
{
    let mut line = [0; LENGTH];
    head::write_head(&mut line, head);
    register.starts_with(&line)
}

// Question 5: whether a slice is laid out as a register.
pub fn is_laid_out(register: &[u8]) -> bool
    ensures { result ≡ laid_out register.now }
{
    if register.len() < LENGTH {
        return false;
    }
    let head = head::read_head(register);
    if !within_limits(head) {
        return false;
    }
    let size = head.rows * head.columns;
    register.len() == entries::line_start(size, head.capacity)
        && head_laid(register, head)
        && scan::entries::entries_laid(register, size, head.top as u8, head.count)
        && blanks::blanks_laid(register, size, head.count, head.capacity)
}
