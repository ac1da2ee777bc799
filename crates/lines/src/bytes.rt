// Bytes as numbers, and the cell that the last two bytes of a field state.
ghost use Rattle.std.specs.Prelude.{◌≡◌};
ghost use Rattle.lines.specs.Bytes.{above, ten, stated};

// How far a byte is above another, round the 256.
pub fn above(byte: u8, base: u8) -> u8
    ensures { result ≡ above byte base }
{
    byte.wrapping_sub(base)
}

// 10 for a 1, 0 for another byte.
fn ten(byte: u8) -> u8
    ensures { result ≡ ten byte }
{
    if byte == b'1' { 10 } else { 0 }
}

// The cell whose field ends with a byte and has another before it; round the 256 where they end none.
pub fn stated(byte: u8, before: u8) -> u8
    ensures { result ≡ stated byte before }
{
    above(byte, b'0').wrapping_add(ten(before))
}
