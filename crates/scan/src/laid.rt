// Whether the bytes of cells are laid out. No test on the way ends the loop, so that many bytes are tested at once.
ghost use Rattle.std.specs.Prelude.{◌≡◌, ◌+◌, ◌≤◌, ◌<◌, length};
ghost use Rattle.scan.specs.Fits.{rest, fits, all_fit};

use crate::tables::Tables;
use lines::bytes::above;

// What is left of a distance: nothing where it is the one of a 1 before a digit.
fn rest(x: u8, teen: u8) -> u8
    ensures { result ≡ rest x teen }
{
    if x == teen { 0 } else { x }
}

// Whether a byte fits.
fn fits(byte: u8, before: u8, base: u8, teen: u8, span: u8, cap: u8) -> bool
    ensures { result ≡ fits byte before base teen span cap }
{
    rest(above(byte, base), teen) <= span.min(above(cap, before))
}

// Whether so many bytes after the one at `before` fit.
pub fn cells_laid(register: &[u8], before: usize, width: usize, tables: &Tables) -> bool
    requires { (width ≤ 384) × (before + width < length register.now) }
    ensures { result ≡ all_fit width register.now before tables.now.base tables.now.teen tables.now.span (39 + tables.now.top) }
{
    let cap = tables.top + 39;
    let mut laid = true;
    for k in 0..width {
        laid &= fits(
            register[before + k + 1],
            register[before + k],
            tables.base[k],
            tables.teen[k],
            tables.span[k],
            cap,
        );
    }
    laid
}
