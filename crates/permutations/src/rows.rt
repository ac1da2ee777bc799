// Row numbers, and permutations of rows.
ghost use Rattle.permutations.specs.Rows.{row_number};

use crate::permutation::{Number, Permutation};

#[derive(Clone, Copy, Debug, PartialEq, Eq)]
pub struct RowNumber(pub u8);

impl Number for RowNumber {
    ghost value = { row_number };

    fn new(number: u8) -> RowNumber {
        RowNumber(number)
    }

    fn value(self) -> u8 {
        self.0
    }
}

pub type RowPermutation = Permutation<RowNumber, 8>;

impl RowPermutation {
    // How many positions there are.
    pub const WIDTH: usize = 8;
}

// A terminal has at most five rows.
pub type TerminalRowPermutation = Permutation<RowNumber, 5>;

impl TerminalRowPermutation {
    pub const WIDTH: usize = 5;
}
