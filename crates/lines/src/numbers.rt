// Decimal numbers, right-justified in fields.
ghost use Rattle.std.specs.Prelude.{◌≡◌, ◌+◌, ◌*◌, ◌^◌, ◌<◌, ◌≤◌, [], ◌∷◌, length};
ghost use Rattle.layout.specs.Decimal.{lead, field, digit, value};

// A number followed by a digit; a space is passed over.
fn digit(number: usize, byte: u8) -> usize
    requires { number ≤ 10000000 }
    ensures { (result ≡ digit number byte) × (result ≤ number * 10 + 207) }
{
    if byte == b' ' {
        number
    } else {
        number * 10 + usize::from(byte.saturating_sub(b'0'))
    }
}

// The number that a field states.
pub fn read_number(field: &[u8]) -> usize
    requires { length field.now ≤ 6 }
    ensures { (result ≡ value field.now) × (result < 10 ^ (length field.now + 2)) }
{
    let mut number = 0;
    for byte in field {
        number = digit(number, *byte);
    }
    number
}

// The byte of the last digit of what is left of a number; a space where nothing is.
fn last_digit(left: usize) -> u8
    ensures { lead 1 left ≡ result ∷ [] }
{
    if left == 0 {
        b' '
    } else {
        b'0' + (left % 10) as u8
    }
}

// Writes a number into a field, over all of the slice.
pub fn write_number(out: &mut [u8], number: usize)
    ensures { out.new ≡ field (length out.old) number }
{
    let Some(last) = out.len().checked_sub(1) else {
        return;
    };
    out[last] = b'0' + (number % 10) as u8;
    let mut left = number / 10;
    for k in (0..last).rev() {
        out[k] = last_digit(left);
        left /= 10;
    }
}
