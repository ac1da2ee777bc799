// Rows that need not be placed next, since another row covers them.
ghost use Rattle.std.specs.Prelude.{◌≡◌, ℕ, ◌<◌};
ghost use Rattle.search.specs.RowSets.{HasRow};
ghost use Rattle.search.specs.RowPairs.{PairSides, pair_differences};
ghost use Rattle.search.specs.Domination.{Ascend, Apart, Others, Sides, Thinned};

use crate::pairs;
use crate::pairs::{Covered, RowPair};
use crate::row_sets::RowSet;
use crate::tables::GridTables;
use permutations::columns::ColumnNumber;
use permutations::rows::RowNumber;

// Which of two rows the other covers, where they differ in columns c and d alone.
fn by_one(pair: &RowPair, c: ColumnNumber, d: ColumnNumber) -> Option<Covered>
    requires { (c.0 < 16) × (d.0 < 16) × (pair_differences pair.now ≡ 2) }
    ensures { PairSides pair.now result }
{
    if !pair.is_crossed(c, d) {
        return None;
    }
    let p = pair.oriented(c, d);
    pair.told(p, p)
}

// The same, where they differ in columns c and d, and e and f.
fn by_two(
    pair: &RowPair,
    c: ColumnNumber,
    d: ColumnNumber,
    e: ColumnNumber,
    f: ColumnNumber,
) -> Option<Covered>
    requires { (c.0 < 16) × (d.0 < 16) × (e.0 < 16) × (f.0 < 16) × (pair_differences pair.now ≡ 4) × Apart c.0 d.0 e.0 f.0 }
    ensures { PairSides pair.now result }
{
    if !pair.is_crossed(c, d) {
        return None;
    }
    if !pair.is_crossed(e, f) {
        return None;
    }
    pair.told(pair.oriented(c, d), pair.oriented(e, f))
}

// The same for each way to pair the four columns.
fn by_four(
    pair: &RowPair,
    c: ColumnNumber,
    d: ColumnNumber,
    e: ColumnNumber,
    f: ColumnNumber,
) -> Option<Covered>
    requires { (c.0 < 16) × (d.0 < 16) × (e.0 < 16) × (f.0 < 16) × (pair_differences pair.now ≡ 4) × Ascend c.0 d.0 e.0 f.0 }
    ensures { PairSides pair.now result }
{
    if let Some(covered) = by_two(pair, c, d, e, f) {
        return Some(covered);
    }
    if let Some(covered) = by_two(pair, c, e, d, f) {
        return Some(covered);
    }
    by_two(pair, c, f, d, e)
}

// Which of rows a and b the other covers: they are equal, or differ in one pair of columns, or in two.
fn covered(
    tables: &GridTables,
    after: &[u8; 16],
    rest: RowSet,
    a: RowNumber,
    b: RowNumber,
) -> Option<Covered>
    requires { (a.0 < 8) × (b.0 < 8) }
    ensures { Sides tables.now.levels tables.now.words after.now (Others rest.bytes a.0 b.0) a.0 b.0 result }
{
    let count = pairs::differences(&tables.levels, a, b);
    if count == 0 {
        return Some(Covered::Second);
    }
    if count != 2 && count != 4 {
        return None;
    }
    let pair = RowPair {
        tables,
        after,
        others: rest.without(a).without(b),
        first: a,
        second: b,
    };
    let first = pairs::mask(&tables.levels, a, b);
    let c = pairs::first_column(first);
    let second = pairs::without_first(first);
    let d = pairs::first_column(second);
    if count == 2 {
        return by_one(&pair, c, d);
    }
    let third = pairs::without_first(second);
    let e = pairs::first_column(third);
    let f = pairs::first_column(pairs::without_first(third));
    if !pairs::ascend(c, d, e, f) {
        return None;
    }
    by_four(&pair, c, d, e, f)
}

// The set of rows, once row a is held against those of `against`.
fn held_against(
    tables: &GridTables,
    after: &[u8; 16],
    rest: RowSet,
    left: RowSet,
    a: RowNumber,
    against: RowSet,
) -> RowSet
    requires { HasRow left.bytes a.0 × (HasRow against.bytes a.0 → ⊥) × ((x : ℕ) → HasRow against.bytes x → HasRow left.bytes x) }
    ensures { Thinned tables.now.levels tables.now.words after.now rest.bytes left.bytes result.bytes }
{
    let mut out = left;
    let mut todo = against;
    while let Some(b) = todo.pop_first() {
        match covered(tables, after, rest, a, b) {
            None => {}
            Some(Covered::First) => return out.without(a),
            Some(Covered::Second) => out = out.without(b),
        }
    }
    out
}

// The rows without those that another covers. Where the first row neither covers nor is covered, no other is tried.
pub fn undominated(tables: &GridTables, after: &[u8; 16], rest: RowSet, rows: RowSet) -> RowSet
    ensures { Thinned tables.now.levels tables.now.words after.now rest.bytes rows.bytes result.bytes }
{
    let mut left = rows;
    let mut todo = rows;
    while let Some(a) = todo.pop_first() {
        left = held_against(tables, after, rest, left, a, todo);
        if left == rows {
            return left;
        }
        todo = todo.both(left);
    }
    left
}
