// The tables of a search.
ghost use Rattle.std.specs.Prelude.{◌≡◌, ℕ, ◌*◌, ◌<◌, ◌≤◌, length, slice_index};
ghost use Rattle.branches.specs.Keys.{level, Small};
ghost use Rattle.search.specs.Tables.{entry, ByRows, ByColumns, ByBits, Tables, tables-prop, is_two, low_of};

use grids::{cells, values};
use permutations::columns::ColumnNumber;
use permutations::rows::RowNumber;

// A grid of m rows and n columns, with the lower of its values where it has two at most, and its tables: its levels by rows and by
// columns, and in a grid of two values 1 for each higher one, by columns.
#[derive(Clone, Copy)]
pub struct GridTables<'a> {
    pub grid: &'a [u8],
    pub m: usize,
    pub n: usize,
    pub low: Option<u8>,
    pub levels: [u8; 128],
    pub words: [u64; 16],
    pub bits: [u16; 128],
    pub ghost are_tables: { Tables m n grid.now (is_two low) (low_of low) levels words bits } by { tables-prop m n grid.now (is_two low) (low_of low) levels words bits },
}

impl<'a> GridTables<'a> {
    // The tables of a grid.
    pub fn of(grid: &'a [u8], m: usize, n: usize) -> GridTables<'a>
        requires { (m ≤ 8) × (n ≤ 16) × (length grid.now ≡ m * n) × Small grid.now }
        ensures rows { result.m ≡ m }
        ensures columns { result.n ≡ n }
        ensures grid { result.grid.now ≡ grid.now }
    {
        let low = values::lower_of_two(grid);
        let levels = by_rows(grid, m, n);
        let bits = match low {
            Some(low) => by_bits(grid, &levels, m, n, low),
            None => [0; 128],
        };
        GridTables {
            grid,
            m,
            n,
            low,
            levels,
            words: by_columns(&levels),
            bits,
        }
    }

    // The level of a row in a column.
    pub fn level(&self, row: RowNumber, column: ColumnNumber) -> u8
        requires { (row.0 < 8) × (column.0 < 16) }
        ensures { result ≡ entry self.now.levels row.0 column.0 }
    {
        self.levels[row.0 as usize * 16 + column.0 as usize]
    }

    // Whether the grid has two values at most.
    pub fn is_two(&self) -> bool
        ensures { result ≡ is_two self.now.low }
    {
        self.low.is_some()
    }
}

// The level of a value.
fn level(value: u8) -> u8
    ensures { result ≡ level value }
{
    cells::rank(value) & 15
}

// The levels of a grid by rows. A grid of 16 columns lies as its table does, and is read as one long row.
fn by_rows(grid: &[u8], m: usize, n: usize) -> [u8; 128]
    requires { (m ≤ 8) × (n ≤ 16) × (length grid.now ≡ m * n) }
    ensures { ByRows m n grid.now result }
{
    let mut out = [0; 128];
    let (rows, width) = if n == 16 { (1, grid.len()) } else { (m, n) };
    for i in 0..rows {
        for j in 0..width {
            out[i * 16 + j] = level(grid[i * n + j]);
        }
    }
    out
}

// The levels of a grid by columns: for each a word, with the level in row r in byte r.
fn by_columns(levels: &[u8; 128]) -> [u64; 16]
    requires { (i : ℕ) → slice_index levels.now i ≤ 15 }
    ensures { ByColumns levels.now result }
{
    let mut out = [0; 16];
    for r in (0..8).rev() {
        for c in 0..16 {
            out[c] = out[c] << 8 | u64::from(levels[r * 16 + c]);
        }
    }
    out
}

// 1 for each cell that is not `low`, by columns.
fn by_bits(grid: &[u8], levels: &[u8; 128], m: usize, n: usize, low: u8) -> [u16; 128]
    requires { (m ≤ 8) × (n ≤ 16) × (length grid.now ≡ m * n) × Small grid.now × (low ≤ 15) × ByRows m n grid.now levels.now }
    ensures { ByBits m n grid.now low result }
{
    let lowest = level(low);
    let mut out = [0; 128];
    for c in 0..n {
        for r in 0..8 {
            out[c * 8 + r] = u16::from(levels[r * 16 + c] != lowest);
        }
    }
    out
}
