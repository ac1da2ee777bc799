// What same finds of two grids.
use permutations::orders::Orders;

// How many leading cells of the two least arrangements agree, and the orders by which the second grid is the arrangement of the first,
// where both are in one class.
#[derive(Clone, Copy)]
pub struct Match<const N: usize> {
    pub agreed: u32,
    pub orders: Option<Orders<N>>,
}
