// Numbers that are laid in fields as document 01 says.
ghost use Rattle.std.specs.Prelude.{◌≡◌, true, ◌↔◌, ◌≤◌, ◌*◌, length};
ghost use Rattle.layout.specs.Decimal.{field};
ghost use Rattle.transcript.specs.Fields.{ReadsCells};

use lines::entries::WIDTH;
use lines::numbers;

// Whether the bytes are the field of this number.
pub fn is_field(bytes: &[u8], number: usize) -> bool
    requires { length bytes.now ≤ 6 }
    ensures { (result ≡ true) ↔ (bytes.now ≡ field (length bytes.now) number) }
{
    let width = bytes.len();
    let mut field = [0; 6];
    numbers::write_number(&mut field[..width], number);
    bytes == &field[..width]
}

// Reads cells, 3 wide each, up to the first that is not laid so or is above 255. Whether there is none.
pub fn read_cells(bytes: &[u8], cells: &mut [u8]) -> bool
    requires { (length cells.old ≤ 256) × (length bytes.now ≡ 3 * length cells.old) }
    ensures { ReadsCells bytes.now (length cells.old) cells.new result }
{
    for (k, cell) in cells.iter_mut().enumerate() {
        let at = WIDTH * k;
        let field = &bytes[at..at + WIDTH];
        let number = numbers::read_number(field);
        let Ok(value) = u8::try_from(number) else {
            return false;
        };
        if !is_field(field, number) {
            return false;
        }
        *cell = value;
    }
    true
}
