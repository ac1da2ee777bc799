// Column numbers, and permutations of columns.
ghost use Rattle.permutations.specs.Columns.{column_number};

use crate::permutation::{Number, Permutation};

#[derive(Clone, Copy, Debug, PartialEq, Eq)]
pub struct ColumnNumber(pub u8);

impl Number for ColumnNumber {
    ghost value = { column_number };

    fn new(number: u8) -> ColumnNumber {
        ColumnNumber(number)
    }

    fn value(self) -> u8 {
        self.0
    }
}

pub type ColumnPermutation = Permutation<ColumnNumber, 16>;

impl ColumnPermutation {
    // How many positions there are.
    pub const WIDTH: usize = 16;
}
