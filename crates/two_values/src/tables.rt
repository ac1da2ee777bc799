// A grid with two values, and its cells as 0 and 1.
ghost use Rattle.std.specs.Prelude.{◌≡◌, ◌*◌, ◌≤◌, length};
ghost use Rattle.grids.specs.Values.{TwoValued};
ghost use Rattle.two_values.specs.Tables.{Tables};

// The cells of m rows and n columns, of which `low` is the lower value. `columns` has 1 for each cell with the higher value, column after
// column; `rows` has 0 for each of them and 1 elsewhere, row after row. They are numbers and no `bool`s, since they are summed and shifted.
#[derive(Drop)]
pub struct TwoValuedGrid<'a> {
    pub cells: &'a [u8],
    pub m: usize,
    pub n: usize,
    pub low: u8,
    pub columns: [u8; 128],
    pub rows: [u8; 128],
    pub ghost tables: { Tables m n cells.now low columns rows },
}

impl<'a> TwoValuedGrid<'a> {
    pub fn new(cells: &'a [u8], m: usize, n: usize, low: u8) -> TwoValuedGrid<'a>
        requires { (m ≤ 8) × (n ≤ 16) × (length cells.now ≡ m * n) × TwoValued cells.now low }
        ensures { (result.cells.now ≡ cells.now) × (result.m ≡ m) × (result.n ≡ n) × (result.low ≡ low) }
    {
        let mut columns = [0u8; 128];
        let mut rows = [1u8; 128];
        for i in 0..m {
            for j in 0..n {
                let is_low = cells[i * n + j] == low;
                columns[j * 8 + i] = !is_low as u8;
                rows[i * 16 + j] = is_low as u8;
            }
        }
        TwoValuedGrid {
            cells,
            m,
            n,
            low,
            columns,
            rows,
        }
    }
}
