// What the search has found.
ghost use Rattle.std.specs.Prelude.{◌≡◌, ◌<◌, ◌≤◌, true, false, slice_index};
ghost use Rattle.permutations.specs.Padded.{IsPadded};
ghost use Rattle.branches.specs.SortedRows.{PlacesBy};
ghost use Rattle.search.specs.Tables.{is_two, low_of};
ghost use Rattle.search.specs.Search.{keys_of, is_ready, keyed_at, rows_of, AreKnown, SameRows, Stands, Finds, Keyed, Matched, CommonRows, Cuts, Lowers};

use crate::columns::ColumnPlaces;
use crate::keys;
use crate::node::Node;
use crate::symmetries::KnownSymmetries;
use crate::tables::GridTables;
use permutations::rows::RowNumber;

// The best: its row order, how many columns come after each, and the keys of its rows where they are made; the symmetries known; how
// many pairs of columns all rows tell apart, at most; and the position that the search can go back to: where it is before the number of
// rows placed, an arrangement of the branch equals the best one, whose row order begins with the same rows. It is the number of all rows where there is
// none, so that one comparison tells both.
#[derive(Clone, Copy)]
pub struct Found {
    pub best: [RowNumber; 8],
    pub after: ColumnPlaces,
    pub keys: Option<[u64; 8]>,
    pub symmetries: KnownSymmetries,
    pub back: u8,
    pub apart: u8,
}

impl Found {
    // The key of the best's row at position i; 0 where no keys are made, which is not looked at, so that no reader asks twice.
    pub fn key(&self, i: usize) -> u64
        requires { i < 8 }
        ensures { result ≡ slice_index (keys_of self.now.keys) i }
    {
        match self.keys {
            Some(keys) => keys[i],
            None => 0,
        }
    }

    // Sets the key at position i, where keys are made.
    pub fn set_key(&mut self, i: usize, key: u64)
        requires { i < 8 }
        ensures { self.new ≡ keyed_at self.old i key }
    {
        if let Some(keys) = &mut self.keys {
            keys[i] = key;
        }
    }
}

// Whether the best's next row is known, and lower than the least.
pub fn is_cut(fresh: bool, known: u64, least: u64) -> bool
    ensures { Cuts fresh known least result }
{
    !fresh && known < least
}

// Whether the best's next row is not known, or higher than the least.
pub fn is_lower(fresh: bool, known: u64, least: u64) -> bool
    ensures { Lowers fresh known least result }
{
    fresh || least < known
}

// Whether the key of a next row is written as the row is placed: in a grid of two values, where it leads to a new best.
pub fn is_written(tables: &GridTables, fresh: bool) -> bool
    ensures { (result ≡ true → fresh ≡ true) × (is_two tables.now.low ≡ true → fresh ≡ true → result ≡ true) }
{
    tables.is_two() && fresh
}

// What was found, with the keys of the best's rows, in a grid of any values.
fn keyed(tables: &GridTables, found: Found) -> Found
    requires { IsPadded 8 tables.now.m (rows_of found.best) × PlacesBy tables.now.m tables.now.n tables.now.grid.now (rows_of found.best) found.after.counts }
    ensures { Keyed tables.now.m tables.now.n tables.now.grid.now (low_of tables.now.low) found result }
{
    let columns = found.after.listed(tables.n);
    let mut keys = [0; 8];
    for i in 0..tables.m {
        keys[i] = keys::digits(tables, found.best[i], columns);
    }
    let mut out = found;
    out.keys = Some(keys);
    out
}

// What was found, with the keys of the best's rows where they are needed.
pub fn with_keys(tables: &GridTables, node: Node, found: Found) -> Found
    requires { Stands tables.now node found }
    ensures stands { Stands tables.now node result }
    ensures ready { node.fresh ≡ false → is_ready result.keys ≡ true }
    ensures best { result.best ≡ found.best }
{
    if node.fresh || found.keys.is_some() {
        found
    } else {
        keyed(tables, found)
    }
}

// How many rows the two orders begin with in common, up to count. The rows are a list here and no permutation with a size, which
// `Permutation::parting` takes.
fn common(a: [RowNumber; 8], b: [RowNumber; 8], count: usize) -> u8
    requires { count ≤ 8 }
    ensures { CommonRows (rows_of a) (rows_of b) count result }
{
    for i in 0..count {
        if a[i] != b[i] {
            return i as u8;
        }
    }
    count as u8
}

// What was found, where the arrangement by a row order equals the best's: they show a symmetry, and the search goes back to where the
// two row orders part.
pub fn matched(tables: &GridTables, rows: [RowNumber; 8], found: Found) -> Found
    requires { IsPadded 8 tables.now.m (rows_of rows) × IsPadded 8 tables.now.m (rows_of found.best) × AreKnown tables.now found.symmetries × SameRows tables.now found.best rows }
    ensures { Matched tables.now.m tables.now.n tables.now.grid.now (rows_of rows) found result }
{
    let best = found.best;
    let mut out = found;
    out.back = common(rows, best, tables.m);
    out.symmetries = found.symmetries.with(tables, best, rows);
    out
}

// What is found where all rows are placed: a new best, or a symmetry of the grid.
pub fn reached(tables: &GridTables, node: Node, found: Found) -> Found
    requires { Stands tables.now node found × (node.placed ≡ tables.now.m) }
    ensures { Finds tables.now node found result }
{
    let rows = node.rows;
    if !node.fresh {
        return matched(tables, rows, found);
    }
    let mut out = found;
    out.best = rows;
    out.after = node.after;
    out.apart = node.after.total();
    if !tables.is_two() {
        out.keys = None;
    }
    out
}
