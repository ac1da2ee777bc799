// A node of the search: a partial row order.
use permutations::rows::RowPermutation;

// The first k of the rows are placed, and `after` holds how many columns come after each, by these rows. In a branch that leads to a new
// best the numbers of the rows placed stand for the best until all rows are placed: `fresh` says so. They are known before that best is, so
// they are no `Option` of what was found.
#[derive(Clone, Copy)]
pub struct Node {
    pub k: usize,
    pub rows: RowPermutation,
    pub after: [u8; 16],
    pub fresh: bool,
}
