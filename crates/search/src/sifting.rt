// The rows that give the least next row, for any values: all rows at once, a row in each byte of a word.
ghost use Rattle.std.specs.Prelude.{◌≡◌, ℕ, ◌-◌, ◌<◌, ◌≤◌, ◌↔◌, ◌≢◌};
ghost use Rattle.branches.specs.Sifting.{BlockEnds, Sifts};
ghost use Rattle.search.specs.RowSets.{lane, HasRow};
ghost use Rattle.search.specs.ColumnLists.{end_of, levels_of};
ghost use Rattle.search.specs.Sifting.{IsLevels, at_most_one, tally, LeadsTo};

use crate::columns::{ColumnList, ColumnPlaces};
use crate::row_sets::RowSet;
use crate::tables::GridTables;

// In each byte: 1 where that of the word is at most v, and 0 elsewhere.
fn at_most(word: u64, v: u64) -> u64
    requires { IsLevels word × (v ≤ 15) }
    ensures lanes { (i : ℕ) → i < 8 → lane i result ≡ at_most_one v (lane i word) }
    ensures small { result ≤ 72340172838076673 }
{
    ((0x8080_8080_8080_8080 + 0x0101_0101_0101_0101 * v - word) >> 7) & 0x0101_0101_0101_0101
}

// In each byte: how many of the columns at places s to e have a level of at most v in this row.
fn counted(tables: &GridTables, columns: ColumnList, s: usize, e: usize, v: u64) -> u64
    requires { (s ≤ e) × (e ≤ 16) × (v ≤ 15) }
    ensures { (i : ℕ) → i < 8 → lane i result ≡ tally v tables.now.words columns.0 i s (e - s) }
{
    let mut count = 0;
    for u in s..e {
        let column = columns.column_at(u);
        count += at_most(tables.words[column.0 as usize], v);
    }
    count
}

// Of the rows left, those with a count above i.
fn kept(count: u64, i: u64, left: RowSet) -> RowSet
    requires { (i < 16) × ((x : ℕ) → x < 8 → lane x count ≤ 16) }
    ensures { (x : ℕ) → HasRow result.bytes x ↔ (HasRow left.bytes x × (i < lane x count)) }
{
    RowSet {
        bytes: (count + 0x0101_0101_0101_0101 * (127 - i)) & left.bytes,
    }
}

// Of the rows of `rest`, those whose sorted cells at the places s to e are least.
fn sifted_block(
    tables: &GridTables,
    columns: ColumnList,
    s: usize,
    e: usize,
    rest: RowSet,
) -> RowSet
    requires { (s ≤ e) × (e ≤ 16) × (rest.bytes ≢ 0) }
    ensures leads { LeadsTo s (e - s) (e - s) (levels_of tables.now.words columns.0 s) rest.bytes result.bytes }
    ensures some { result.bytes ≢ 0 }
{
    let mut left = rest;
    let mut v = 0;
    let mut i = 0;
    let mut count = counted(tables, columns, s, e, 0);
    // A turn does not always take a place: where no row is kept, the next value is tried.
    while i < e - s {
        if left.is_lone() {
            return left;
        }
        let keep = kept(count, i as u64, left);
        if keep.is_empty() {
            v += 1;
            count = counted(tables, columns, s, e, v);
            continue;
        }
        left = keep;
        i += 1;
    }
    left
}

// Of the rows of `rest`, those whose next row is least.
pub fn sifted(
    tables: &GridTables,
    columns: ColumnList,
    places: &ColumnPlaces,
    rest: RowSet,
) -> RowSet
    requires { BlockEnds tables.now.n (end_of columns.0 places.now.counts) × (rest.bytes ≢ 0) }
    ensures sifts { Sifts tables.now.n (end_of columns.0 places.now.counts) (levels_of tables.now.words columns.0) (HasRow rest.bytes) tables.now.n (HasRow result.bytes) }
    ensures some { result.bytes ≢ 0 }
{
    let mut left = rest;
    let mut s = 0;
    // The step is the width of a block.
    while s < tables.n {
        if left.is_lone() {
            return left;
        }
        let column = columns.column_at(s);
        let e = 16 - places.counts[column.0 as usize] as usize;
        left = sifted_block(tables, columns, s, e, left);
        s = e;
    }
    left
}
