// A row order and a column order: an arrangement of a grid.
ghost use Rattle.std.specs.Prelude.{◌≤◌, take};
ghost use Rattle.permutations.specs.Permutations.{identity};
ghost use Rattle.permutations.specs.Padded.{composed_padded, inverse_padded};
ghost use Rattle.permutations.specs.Numbered.{Lists};

use crate::columns::ColumnPermutation;
use crate::permutation::Permutation;
use crate::rows::RowNumber;

// The row order has N positions: 8, or 5 at a terminal.
#[derive(Clone, Copy)]
pub struct Orders<const N: usize> {
    pub rows: Permutation<RowNumber, N>,
    pub columns: ColumnPermutation,
}

impl<const N: usize> Orders<N> {
    // Orders of m rows and n columns that move nothing.
    pub fn identity(m: usize, n: usize) -> Orders<N>
        ensures rows { N ≤ 256 → Lists (identity N) m result.rows }
        ensures columns { Lists (identity 16) n result.columns }
    {
        Orders {
            rows: Permutation::identity(m),
            columns: Permutation::identity(n),
        }
    }

    // These orders followed by others.
    pub fn composed(self, other: Orders<N>) -> Orders<N>
        ensures rows { N ≤ 256 → Lists (composed_padded N self.entry.rows.size self.entry.rows.at other.entry.rows.size other.entry.rows.at) self.entry.rows.size result.rows }
        ensures columns { Lists (composed_padded 16 self.entry.columns.size self.entry.columns.at other.entry.columns.size other.entry.columns.at) self.entry.columns.size result.columns }
    {
        Orders {
            rows: self.rows.composed(other.rows),
            columns: self.columns.composed(other.columns),
        }
    }

    // The orders that, composed with these on either side, move nothing.
    pub fn inverse(self) -> Orders<N>
        ensures rows { N ≤ 256 → Lists (inverse_padded N self.entry.rows.size self.entry.rows.at) self.entry.rows.size result.rows }
        ensures columns { Lists (inverse_padded 16 self.entry.columns.size self.entry.columns.at) self.entry.columns.size result.columns }
    {
        Orders {
            rows: self.rows.inverse(),
            columns: self.columns.inverse(),
        }
    }

    // The row order in fewer positions. In more, nothing is promised.
    pub fn narrowed<const M: usize>(self) -> Orders<M>
        ensures rows { M ≤ N → Lists (take M self.entry.rows.at) self.entry.rows.size result.rows }
        ensures columns { Lists self.entry.columns.at self.entry.columns.size result.columns }
    {
        Orders {
            rows: self.rows.narrowed(),
            columns: self.columns,
        }
    }
}
