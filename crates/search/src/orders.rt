// The orders of the least arrangement.
ghost use Rattle.std.specs.Prelude.{◌≡◌, ◌*◌, ◌≤◌, true, length};
ghost use Rattle.permutations.specs.Lists.{tabulate};
ghost use Rattle.permutations.specs.Numbered.{Lists};
ghost use Rattle.permutations.specs.Permutations.{identity};
ghost use Rattle.branches.specs.Keys.{Small};
ghost use Rattle.search.specs.ColumnLists.{column_at};
ghost use Rattle.search.specs.Tables.{is_two};
ghost use Rattle.search.specs.Search.{rows_of, keys_of, is_ready, Stands, Finds};
ghost use Rattle.search.specs.Orders.{LeastOrders};

use crate::columns::{ColumnList, ColumnPlaces};
use crate::found::Found;
use crate::node::Node;
use crate::row_sets::RowSet;
use crate::symmetries::KnownSymmetries;
use crate::tables::GridTables;
use crate::{placing, settled};
use permutations::columns::ColumnPermutation;
use permutations::orders::Orders;
use permutations::rows::{RowNumber, RowPermutation};
use std::array;

// What the search finds from its start: where no row tells columns apart, the rows need only be sorted.
fn begun(tables: &GridTables, node: Node, found: Found) -> Found
    requires { Stands tables.now node found × (node.placed ≡ 0) }
    ensures { Finds tables.now node found result }
{
    if 0 < tables.m && settled::is_settled(tables, 0, &node.after, found.apart) {
        settled::completed(tables, node, found)
    } else {
        placing::place(tables, node, found)
    }
}

// The columns of a list.
fn columns_of(list: ColumnList, n: usize) -> ColumnPermutation
    ensures { Lists (tabulate 0 16 (column_at list.0)) n result }
{
    ColumnPermutation::listed(array::from_fn(|j| list.column_at(j).0), n)
}

// The keys before there is a best: in a grid of two values they are always made.
fn first_keys(tables: &GridTables) -> Option<[u64; 8]>
    ensures { (length (keys_of result) ≡ 8) × (is_ready result ≡ is_two tables.now.low) }
{
    if tables.is_two() { Some([0; 8]) } else { None }
}

// The rows in their own order.
fn own_rows() -> [RowNumber; 8]
    ensures { rows_of result ≡ identity 8 }
{
    array::from_fn(|i| RowNumber(i as u8))
}

// The rows in this order.
fn rows_as(rows: [RowNumber; 8], m: usize) -> RowPermutation
    ensures { Lists (rows_of rows) m result }
{
    RowPermutation::listed(array::from_fn(|i| rows[i].0), m)
}

// The orders of the least arrangement, by the grid's tables.
fn searched(tables: &GridTables) -> Orders<8>
    ensures { LeastOrders tables.now.m tables.now.n tables.now.grid.now result }
{
    let rows = own_rows();
    let after = ColumnPlaces::first(tables.n);
    let node = Node {
        rows,
        after,
        rest: RowSet::first_rows(tables.m),
        placed: 0,
        fresh: true,
    };
    let symmetries = KnownSymmetries {
        maps: [RowNumber(0); 32],
        count: 0,
    };
    let keys = first_keys(tables);
    let start = Found {
        best: rows,
        after,
        keys,
        symmetries,
        back: tables.m as u8,
        apart: settled::ALL_PAIRS,
    };
    let found = begun(tables, node, start);
    let list = found.after.listed(tables.n);
    Orders {
        rows: rows_as(found.best, tables.m),
        columns: columns_of(list, tables.n),
    }
}

// The orders of the least arrangement.
pub fn least_orders(grid: &[u8], m: usize, n: usize) -> Orders<8>
    requires { (m ≤ 8) × (n ≤ 16) × (length grid.now ≡ m * n) × Small grid.now }
    ensures { LeastOrders m n grid.now result }
{
    let tables = GridTables::of(grid, m, n);
    searched(&tables)
}
