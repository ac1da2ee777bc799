// The tables by which the bytes of an entry's cells are tested: each has three bytes for a cell.
ghost use Rattle.std.specs.Prelude.{◌≡◌, ◌≤◌};
ghost use Rattle.lines.specs.Tables.{Thirds};
ghost use Rattle.scan.specs.Tables.{teen_of, span_of};

use lines::tables::{Table, fill};

// The tables of grids with so many cells and this top.
#[derive(Drop)]
pub struct Tables {
    pub size: usize,
    pub top: u8,
    // The lowest byte.
    pub base: Table,
    // How far a byte may be above the lowest, besides by its span.
    pub teen: Table,
    // How far a byte may be above the lowest.
    pub span: Table,
    ghost few: { size ≤ 128 },
    ghost low: { top ≤ 15 },
    ghost bases: { Thirds base size 32 32 (λ k. 48) },
    ghost teens: { Thirds teen size 0 (teen_of top) (λ k. 0) },
    ghost spans: { Thirds span size 0 0 (λ k. span_of top) },
}

impl Tables {
    pub fn new(size: usize, top: u8) -> Tables
        requires { (size ≤ 128) × (top ≤ 15) }
        ensures { (result.size ≡ size) × (result.top ≡ top) }
    {
        let mut tables = Tables {
            size,
            top,
            base: [0; 384],
            teen: [0; 384],
            span: [0; 384],
        };
        fill(&mut tables.base, size, b' ', b' ', |_| b'0');
        fill(&mut tables.teen, size, 0, teen_of(top), |_| 0);
        fill(&mut tables.span, size, 0, 0, |_| span_of(top));
        tables
    }
}

// How far the second byte of a cell may be above a space besides nothing.
fn teen_of(top: u8) -> u8
    ensures { result ≡ teen_of top }
{
    if top < 10 { 0 } else { b'1' - b' ' }
}

// How far the last byte of a cell may be above a 0.
fn span_of(top: u8) -> u8
    ensures { result ≡ span_of top }
{
    top.min(9)
}
