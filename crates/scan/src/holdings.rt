// Whether the holdings of a line are laid out. No test on the way ends the loop, so that it has no jump inside.
ghost use Rattle.std.specs.Prelude.{◌≡◌, true, ◌↔◌, ◌+◌, ◌*◌, ◌≤◌, length};
ghost use Rattle.layout.specs.Layout.{clients, cell_width};
ghost use Rattle.scan.specs.Holdings.{is_first, is_holding, is_none, HoldingsLaid};

use lines::entries::{CLIENTS, WIDTH};

// Whether a byte is a digit but no 0.
fn is_first(byte: u8) -> bool
    ensures { result ≡ is_first byte }
{
    matches!(byte, b'1'..=b'9')
}

// Whether three bytes are the field of a number of at most 999.
fn is_holding(a: u8, b: u8, c: u8) -> bool
    ensures { result ≡ is_holding a b c }
{
    let short = (a == b' ') & ((b == b' ') | is_first(b));
    let long = is_first(a) & b.is_ascii_digit();
    (short | long) & c.is_ascii_digit()
}

// Whether the last two bytes of a field are those of a 0.
fn is_none(b: u8, c: u8) -> bool
    ensures { result ≡ is_none b c }
{
    (b == b' ') & (c == b'0')
}

// Whether the bytes from a place on are the fields of a holding for each client, not all of 0.
pub fn holdings_laid(register: &[u8], at: usize) -> bool
    requires { at + cell_width * clients ≤ length register.now }
    ensures { (result ≡ true) ↔ HoldingsLaid register.now at }
{
    let mut laid = true;
    let mut none = true;
    for k in 0..CLIENTS {
        let a = register[at + WIDTH * k];
        let b = register[at + WIDTH * k + 1];
        let c = register[at + WIDTH * k + 2];
        laid &= is_holding(a, b, c);
        none &= is_none(b, c);
    }
    laid & !none
}
