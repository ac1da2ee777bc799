// Pairs of columns by which one row covers another.
ghost use Rattle.std.specs.Prelude.{◌≡◌, ◌<◌, true};
ghost use Rattle.search.specs.RowSets.{HasRow};
ghost use Rattle.search.specs.Domination as spec;
ghost use Rattle.search.specs.Domination.{Crossed, Oriented, NoneHigher, Tried, Ascend};

use crate::row_sets::RowSet;
use crate::tables::GridTables;
use permutations::columns::ColumnNumber;
use permutations::rows::RowNumber;

// Which of two rows need not be placed next, since the other covers it.
#[derive(Clone, Copy)]
pub enum Covered {
    First,
    Second,
}

// A pair of columns, in the first of which a row has the lower level.
#[derive(Clone, Copy)]
pub struct ColumnPair {
    pub low: ColumnNumber,
    pub high: ColumnNumber,
}

// Two rows held against each other. `after` says which columns the rows placed tell apart, and `others` are the rest of the rows left.
#[derive(Clone, Copy)]
pub struct RowPair<'a> {
    pub tables: &'a GridTables<'a>,
    pub after: &'a [u8; 16],
    pub others: RowSet,
    pub first: RowNumber,
    pub second: RowNumber,
    pub ghost within: { (first.0 < 8) × (second.0 < 8) },
}

impl RowPair<'_> {
    // Whether the rows differ in column c, no row placed tells c from d, and the first has in c what the second has in d, and the
    // other way round.
    pub fn is_crossed(&self, c: ColumnNumber, d: ColumnNumber) -> bool
        requires { (c.0 < 16) × (d.0 < 16) }
        ensures { result ≡ true → Crossed self.now.tables.now.levels self.now.after.now self.now.first.0 self.now.second.0 c.0 d.0 }
    {
        let tables = self.tables;
        if self.after[c.0 as usize] != self.after[d.0 as usize] {
            return false;
        }
        if tables.level(self.first, c) == tables.level(self.second, c) {
            return false;
        }
        if tables.level(self.first, c) != tables.level(self.second, d) {
            return false;
        }
        tables.level(self.second, c) == tables.level(self.first, d)
    }

    // The two columns, that in which the second row has the lower level first.
    pub fn oriented(&self, c: ColumnNumber, d: ColumnNumber) -> ColumnPair
        requires { (c.0 < 16) × (d.0 < 16) }
        ensures { Oriented self.now.tables.now.levels self.now.second.0 c.0 d.0 result.low.0 result.high.0 }
    {
        if self.tables.level(self.second, d) < self.tables.level(self.second, c) {
            ColumnPair { low: d, high: c }
        } else {
            ColumnPair { low: c, high: d }
        }
    }

    // Whether no other row has a higher level in column d than in c.
    fn none_higher(&self, c: ColumnNumber, d: ColumnNumber) -> bool
        requires { (c.0 < 16) × (d.0 < 16) }
        ensures { result ≡ true → NoneHigher self.now.tables.now.words (HasRow self.now.others.bytes) c.0 d.0 }
    {
        let words = &self.tables.words;
        let others = self.others.bytes;
        (0x8080_8080_8080_8080 + words[c.0 as usize] - words[d.0 as usize]) & others == others
    }

    // Which of the rows the other covers, where they exchange their levels in the columns of both pairs, which are those of the second.
    pub fn told(&self, p: ColumnPair, q: ColumnPair) -> Option<Covered>
        requires { (p.low.0 < 16) × (p.high.0 < 16) × (q.low.0 < 16) × (q.high.0 < 16) }
        ensures { Tried self.now.tables.now.words (HasRow self.now.others.bytes) p.low.0 p.high.0 q.low.0 q.high.0 result }
    {
        if self.none_higher(p.low, p.high) {
            if self.none_higher(q.low, q.high) {
                return Some(Covered::Second);
            }
        }
        if self.none_higher(p.high, p.low) {
            if self.none_higher(q.high, q.low) {
                return Some(Covered::First);
            }
        }
        None
    }
}

// In how many columns two rows differ.
pub fn differences(levels: &[u8; 128], a: RowNumber, b: RowNumber) -> u8
    requires { (a.0 < 8) × (b.0 < 8) }
    ensures { result ≡ spec.differences levels.now a.0 b.0 }
{
    let p = a.0 as usize * 16;
    let q = b.0 as usize * 16;
    let mut count = 0;
    for c in 0..16 {
        count += u8::from(levels[p + c] != levels[q + c]);
    }
    count
}

// One bit for each column in which two rows differ. Nothing rests on it: what it proposes is tested.
pub fn mask(levels: &[u8; 128], a: RowNumber, b: RowNumber) -> u32
    requires { (a.0 < 8) × (b.0 < 8) }
{
    let p = a.0 as usize * 16;
    let q = b.0 as usize * 16;
    let mut out = 0;
    for c in 0..16 {
        out |= u16::from(levels[p + c] != levels[q + c]) << c;
    }
    u32::from(out)
}

// The first column of a mask.
pub fn first_column(mask: u32) -> ColumnNumber
    ensures { result.0 < 16 }
{
    ColumnNumber((mask.trailing_zeros() & 15) as u8)
}

// The mask without its first column.
pub fn without_first(mask: u32) -> u32 {
    mask & mask.wrapping_sub(1)
}

// Whether four columns ascend.
pub fn ascend(c: ColumnNumber, d: ColumnNumber, e: ColumnNumber, f: ColumnNumber) -> bool
    ensures { result ≡ true → Ascend c.0 d.0 e.0 f.0 }
{
    c.0 < d.0 && d.0 < e.0 && e.0 < f.0
}
