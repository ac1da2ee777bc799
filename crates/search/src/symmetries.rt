// Symmetries of the grid that the search finds.
ghost use Rattle.std.specs.Prelude.{◌≡◌, ◌+◌, ◌<◌, ◌≤◌};
ghost use Rattle.permutations.specs.Padded.{IsPadded};
ghost use Rattle.search.specs.Search.{rows_of, AreKnown, SameRows, Spreads, SpreadsWith};
ghost use Rattle.search.specs.Symmetries.{Fixes, Images};

use crate::row_sets::RowSet;
use crate::tables::GridTables;
use permutations::rows::RowNumber;

// Symmetries that are known: maps of row numbers, eight numbers each, of which the first `count` stand.
#[derive(Clone, Copy)]
pub struct KnownSymmetries {
    pub maps: [RowNumber; 32],
    pub count: u8,
}

impl KnownSymmetries {
    // With one more, where there is room: that which carries the first row order to the second. A full list stays as it is.
    pub fn with(
        self,
        tables: &GridTables,
        first: [RowNumber; 8],
        second: [RowNumber; 8],
    ) -> KnownSymmetries
        requires { AreKnown tables.now self × IsPadded 8 tables.now.m (rows_of first) × IsPadded 8 tables.now.m (rows_of second) × SameRows tables.now first second }
        ensures known { AreKnown tables.now result }
        ensures more { self.count < 4 → result.count ≡ self.count + 1 }
        ensures full { self.count ≡ 4 → result ≡ self }
    {
        let kept = self.count as usize;
        if kept == 4 {
            return self;
        }
        let mut out = self;
        for i in 0..tables.m {
            out.maps[kept * 8 + first[i].0 as usize] = second[i];
        }
        out.count += 1;
        out
    }

    // Whether symmetry s moves none of the first k rows.
    fn fixes(&self, s: usize, rows: [RowNumber; 8], m: usize, k: usize) -> bool
        requires { (s < 4) × (m ≤ 8) × (k ≤ m) × IsPadded 8 m (rows_of rows) }
        ensures { Fixes (rows_of self.now.maps) s (rows_of rows) k result }
    {
        for row in &rows[..k] {
            if self.maps[s * 8 + row.0 as usize] != *row {
                return false;
            }
        }
        true
    }

    // The rows of a set, and images of them under symmetry s.
    fn images(&self, s: usize, m: usize, covered: RowSet) -> RowSet
        requires { (m ≤ 8) × (s < 4) }
        ensures { Images m (rows_of self.now.maps) s covered.bytes result.bytes }
    {
        let mut out = covered;
        for r in 0..m {
            let image = self.maps[s * 8 + r];
            if image.0 < 8 && out.has(RowNumber(r as u8)) {
                out = out.with(image);
            }
        }
        out
    }

    // The rows of a set, and their images under the symmetries that move none of the first k rows.
    fn spread(&self, tables: &GridTables, k: usize, rows: [RowNumber; 8], covered: RowSet) -> RowSet
        requires { (k < tables.now.m) × IsPadded 8 tables.now.m (rows_of rows) × AreKnown tables.now self.now }
        ensures { Spreads tables.now.m tables.now.n tables.now.grid.now k (rows_of rows) covered.bytes result.bytes }
    {
        let mut out = covered;
        for s in 0..self.count as usize {
            if self.fixes(s, rows, tables.m, k) {
                out = self.images(s, tables.m, out);
            }
        }
        out
    }

    // The rows of a set, with one more, and their images under the symmetries that move none of the first k rows. Where no symmetry
    // is known, nothing comes of the row.
    pub fn covered_with(
        &self,
        tables: &GridTables,
        k: usize,
        rows: [RowNumber; 8],
        covered: RowSet,
        row: RowNumber,
    ) -> RowSet
        requires { (k < tables.now.m) × IsPadded 8 tables.now.m (rows_of rows) × AreKnown tables.now self.now × (row.0 < 8) }
        ensures { SpreadsWith tables.now.m tables.now.n tables.now.grid.now k (rows_of rows) covered.bytes row.0 result.bytes }
    {
        if self.count == 0 {
            covered
        } else {
            self.spread(tables, k, rows, covered.with(row))
        }
    }
}
