// Keys of rows: numbers in the order of the next rows.
ghost use Rattle.std.specs.Prelude.{◌≡◌, ℕ, ◌^◌, ◌<◌, ◌≤◌, map, slice_index};
ghost use Rattle.permutations.specs.Sums.{sum_to};
ghost use Rattle.permutations.specs.Rows.{row_number};
ghost use Rattle.branches.specs.Keys.{number};
ghost use Rattle.search.specs.ColumnLists.{column_at};
ghost use Rattle.search.specs.Tables.{entry, RowKeys};
ghost use Rattle.search.specs.Keys.{Lowest, WithKey, RowsWithin};

use crate::columns::{ColumnList, ColumnPlaces};
use crate::row_sets::RowSet;
use crate::tables::GridTables;
use permutations::rows::RowNumber;

// A row's levels in an order of the columns, as a number to base 16.
pub fn digits(tables: &GridTables, row: RowNumber, columns: ColumnList) -> u64
    requires { row.0 < 8 }
    ensures { result ≡ number tables.now.n (λ j. entry tables.now.levels row.0 (column_at columns.0 j)) }
{
    let mut number = 0;
    for j in 0..tables.n {
        number = 16 * number + u64::from(tables.level(row, columns.column_at(j)));
    }
    number
}

// For each row of two values the sum of its higher ones, each 2 to the power of how many columns come after its own.
pub fn row_keys(bits: &[u16; 128], places: &ColumnPlaces) -> [u16; 8]
    requires { ((i : ℕ) → slice_index bits.now i ≤ 1) × (sum_to 16 (λ c. 2 ^ slice_index places.now.counts c) < 65536) }
    ensures { RowKeys bits.now places.now.counts result }
{
    let mut out = [0u16; 8];
    for c in 0..16 {
        for r in 0..8 {
            out[r] += bits[c * 8 + r] << places.counts[c];
        }
    }
    out
}

// The least key of the rows from position k on.
pub fn lowest(keys: &[u16; 8], rows: [RowNumber; 8], m: usize, k: usize) -> u16
    requires { (k < m) × (m ≤ 8) × RowsWithin (map row_number rows) }
    ensures { Lowest m k (map row_number rows) keys.now result }
{
    let mut least = keys[rows[k].0 as usize];
    for t in k + 1..m {
        least = least.min(keys[rows[t].0 as usize]);
    }
    least
}

// The rows from position k on that have a key.
pub fn with_key(keys: &[u16; 8], rows: [RowNumber; 8], m: usize, k: usize, key: u16) -> RowSet
    requires { (k ≤ m) × (m ≤ 8) × RowsWithin (map row_number rows) }
    ensures { WithKey m k (map row_number rows) keys.now key result.bytes }
{
    let mut out = RowSet::empty();
    for t in k..m {
        let row = rows[t];
        if keys[row.0 as usize] == key {
            out = out.with(row);
        }
    }
    out
}
