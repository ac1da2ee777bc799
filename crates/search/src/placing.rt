// The search for the least arrangement of a grid. It goes over partial row orders: one row is placed after another. All rows that give
// the least next row are followed, but those that another covers, and the images of rows tried under symmetries found.
ghost use Rattle.std.specs.Prelude.{◌≡◌, ℕ, ◌+◌, ◌<◌, true, false, ◌≢◌};
ghost use Rattle.search.specs.RowSets.{HasRow, Thins};
ghost use Rattle.search.specs.Search.{rows_of, Stands, IsNode, IsFollowed, Finds};

use crate::found::Found;
use crate::node::Node;
use crate::row_sets::RowSet;
use crate::tables::GridTables;
use crate::{domination, found, node, settled};
use permutations::rows::RowNumber;

// Of the rows that give the least next row, those that are followed: where no symmetry is known, none that another covers.
fn chosen(tables: &GridTables, node: Node, rows: RowSet, known: u8) -> RowSet
    requires { IsNode tables.now node × (rows.bytes ≢ 0) × ((r : ℕ) → HasRow rows.bytes r → HasRow node.rest.bytes r) }
    ensures { Thins tables.now.m tables.now.n tables.now.grid.now node.placed (rows_of node.rows) rows.bytes result.bytes }
{
    if known != 0 {
        return rows;
    }
    if rows.is_lone() {
        return rows;
    }
    domination::undominated(tables, &node.after.counts, node.rest, rows)
}

// Whether a row is followed: it is chosen, and not covered yet.
fn is_followed(chosen: RowSet, covered: RowSet, row: RowNumber) -> bool
    requires { row.0 < 8 }
    ensures { IsFollowed chosen.bytes covered.bytes row.0 result }
{
    chosen.has(row) && !covered.has(row)
}

// Whether one row is left, and makes no difference.
fn is_last(k: usize, m: usize, fresh: bool) -> bool
    requires { k < m }
    ensures { result ≡ true → (k + 1 ≡ m) × (fresh ≡ false) }
{
    !fresh && k + 1 == m
}

// The best of the branch in which the node's rows are placed, and of what was the best before. Where an arrangement equals the best one,
// the two row orders show a symmetry of the grid, and the search goes back to where they part.
pub fn place(tables: &GridTables, node: Node, found: Found) -> Found
    requires { Stands tables.now node found }
    ensures { Finds tables.now node found result }
{
    let k = node.placed;
    if k == tables.m {
        return found::reached(tables, node, found);
    }
    if settled::is_settled(tables, k, &node.after, found.apart) {
        return settled::completed(tables, node, found);
    }
    let mut now = found::with_keys(tables, node, found);
    let next = node::next_rows(tables, node);
    let known = now.key(k);
    if found::is_cut(node.fresh, known, next.key) {
        return now;
    }
    let mut fresh = found::is_lower(node.fresh, known, next.key);
    if found::is_written(tables, fresh) {
        now.set_key(k, next.key);
    }
    if is_last(k, tables.m, fresh) {
        return found::matched(tables, node.rows, now);
    }
    let rows = chosen(tables, node, next.rows, now.symmetries.count);
    let mut covered = RowSet::empty();
    for t in k..tables.m {
        let row = node.rows[t];
        if is_followed(rows, covered, row) {
            let deeper = node::deeper(tables, node, next, t, row, fresh);
            now = place(tables, deeper, now);
            fresh = false;
            if (now.back as usize) < k {
                return now;
            }
            now.back = tables.m as u8;
            covered = now
                .symmetries
                .covered_with(tables, k, node.rows, covered, row);
        }
    }
    now
}
