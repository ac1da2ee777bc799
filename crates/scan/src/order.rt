// Which of two lines comes first: 16 bytes at a time while they agree, then cells, by rank. The lines are given by the places of
// their first bytes.
ghost use Rattle.std.specs.Prelude.{◌≡◌, true, ◌↔◌, ◌+◌, ◌*◌, ◌≤◌, length, take, drop};
ghost use Rattle.layout.specs.Decimal.{field};
ghost use Rattle.layout.specs.Layout.{number_at};
ghost use Rattle.scan.specs.Cells.{CellsLaid, Same, same_from};
ghost use Rattle.scan.specs.Lines.{Precedes};

use grids::cells;
use lines::bytes::stated;
use lines::entries::WIDTH;

// Whether 16 bytes are the same: no way out of the loop, so that they are compared at once.
fn same_from(register: &[u8], p: usize, q: usize) -> bool
    requires { (p + 16 ≤ length register.now) × (q + 16 ≤ length register.now) }
    ensures { result ≡ same_from register.now p q 16 }
{
    let mut same = true;
    for n in 0..16 {
        same &= register[p + n] == register[q + n];
    }
    same
}

// A number of leading bytes that agree, found 16 at a time.
pub fn agreed(register: &[u8], p: usize, q: usize, width: usize) -> usize
    requires { (p + width ≤ length register.now) × (q + width ≤ length register.now) }
    ensures { (result ≤ width) × Same register.now p q result }
{
    for block in 0..width / 16 {
        let i = 16 * block;
        if !same_from(register, p + i, q + i) {
            return i;
        }
    }
    16 * (width / 16)
}

// The number of a field that is laid out.
fn cell(register: &[u8], at: usize) -> u8
    requires { (at + 3 ≤ length register.now) × (take 3 (drop at register.now) ≡ field 3 (number_at 3 at register.now)) × (number_at 3 at register.now ≤ 15) }
    ensures { result ≡ number_at 3 at register.now }
{
    stated(register[at + 2], register[at + 1])
}

// Whether the first of two lines comes before the second, where the cells before cell `from` agree.
pub fn comes_before(register: &[u8], p: usize, q: usize, from: usize, size: usize) -> bool
    requires { (size ≤ 128) × (p + 3 * size ≤ length register.now) × (q + 3 * size ≤ length register.now) × CellsLaid 15 register.now p size × CellsLaid 15 register.now q size × (from ≤ size) × Same register.now p q (3 * from) }
    ensures { (result ≡ true) ↔ Precedes size register.now p q }
{
    for k in from..size {
        let x = cell(register, p + WIDTH * k);
        let y = cell(register, q + WIDTH * k);
        if x != y {
            return cells::rank(x) < cells::rank(y);
        }
    }
    false
}
