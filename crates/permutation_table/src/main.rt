// Prints the orders of marked plan M1 and an order of a terminal's rows, their inverses and compositions, and what is made of orders
// that are none.
#![tactic(auto)]

use permutations::columns::{ColumnNumber, ColumnPermutation};
use permutations::permutation::Permutation;
use permutations::rows::{RowNumber, RowPermutation, TerminalRowPermutation};
use std::io;

// Prints a line: a label, and the numbers after it.
fn print_numbers(rt: &impl Print, label: &str, numbers: &[u8]) -> io::Result<()> {
    print!(rt; "{label}")?;
    for number in numbers {
        print!(rt; " {number}")?;
    }
    println!(rt; "")
}

// Prints a line: a label, and the numbers in an order's positions.
fn print_order<I, const N: usize>(
    rt: &impl Print,
    label: &str,
    order: Permutation<I, N>,
) -> io::Result<()> {
    print_numbers(rt, label, &order.at)
}

fn rows(a: u8, b: u8, size: usize) -> RowPermutation {
    RowPermutation::identity(size)
        .with(0, RowNumber(a))
        .with(1, RowNumber(b))
}

// Three rows of a terminal, in an order of this size.
fn terminal_rows(a: u8, b: u8, c: u8, size: usize) -> TerminalRowPermutation {
    rows(a, b, size).with(2, RowNumber(c)).narrowed()
}

fn columns(a: u8, b: u8, c: u8, size: usize) -> ColumnPermutation {
    ColumnPermutation::identity(size)
        .with(0, ColumnNumber(a))
        .with(1, ColumnNumber(b))
        .with(2, ColumnNumber(c))
}

fn main(rt: HostRuntime) -> io::Result<()> {
    let rt = &rt;
    let p = rows(1, 0, 2);
    print_order(rt, "P                       ", p)?;
    print_order(rt, "P inverse               ", p.inverse())?;
    print_order(rt, "P followed by P         ", p.composed(p))?;
    print_order(rt, "a row twice, inverse    ", rows(1, 1, 2).inverse())?;
    print_order(rt, "a row too large, inverse", rows(2, 0, 2).inverse())?;
    print_order(rt, "sizes that differ       ", p.composed(rows(1, 0, 3)))?;
    let q = columns(2, 0, 1, 3);
    print_order(rt, "Q                       ", q)?;
    print_order(rt, "Q inverse               ", q.inverse())?;
    print_order(rt, "Q followed by Q         ", q.composed(q))?;
    print_order(rt, "Q followed by Q inverse ", q.composed(q.inverse()))?;
    print_order(
        rt,
        "Q, then 1 0 2           ",
        q.composed(columns(1, 0, 2, 3)),
    )?;
    print_order(
        rt,
        "1 0 2, then Q           ",
        columns(1, 0, 2, 3).composed(q),
    )?;
    print_order(
        rt,
        "size 17                 ",
        columns(2, 0, 1, 17).inverse(),
    )?;
    let t = terminal_rows(2, 0, 1, 3);
    print_order(rt, "T, at a terminal        ", t)?;
    print_order(rt, "T inverse               ", t.inverse())?;
    print_order(rt, "T followed by T         ", t.composed(t))?;
    print_order(rt, "T followed by T inverse ", t.composed(t.inverse()))?;
    print_order(
        rt,
        "T, then 1 0 2           ",
        t.composed(terminal_rows(1, 0, 2, 3)),
    )?;
    print_order(
        rt,
        "sizes that differ       ",
        t.composed(terminal_rows(2, 0, 1, 4)),
    )?;
    print_order(
        rt,
        "a row too large, inverse",
        terminal_rows(3, 0, 1, 3).inverse(),
    )?;
    print_order(
        rt,
        "size 5, inverse         ",
        terminal_rows(2, 0, 1, 5).inverse(),
    )?;
    print_order(
        rt,
        "size 6                  ",
        terminal_rows(2, 0, 1, 6).inverse(),
    )?;
    print_order(
        rt,
        "starting                ",
        TerminalRowPermutation::identity(5),
    )
}
