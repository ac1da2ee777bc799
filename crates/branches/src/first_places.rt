// Columns by how many come after them, before any row is placed.
ghost use Rattle.std.specs.Prelude.{◌≡◌, ◌*◌, ◌<◌, ◌≤◌};
ghost use Rattle.branches.specs.SortedRows.{first_place, FirstPlaces};

use std::array;

// How many of 16 columns come after column c: those from n on, and of these the later ones.
fn first_place(n: usize, c: usize) -> u8
    requires { (n ≤ 16) × (c < 16) }
    ensures { result ≡ first_place n c }
{
    if c < n {
        (16 - n) as u8
    } else {
        (15 - c) as u8
    }
}

// The same for each column.
pub fn first_places(n: usize) -> [u8; 16]
    requires { n ≤ 16 }
    ensures { FirstPlaces n result }
{
    array::from_fn(|c| first_place(n, c))
}
