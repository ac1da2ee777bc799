// Sets of rows.
ghost use Rattle.std.specs.Prelude.{◌≡◌, ℕ, ◌<◌, ◌≤◌, true, IsTrue, MatchOption, ◌⊎◌, ◌↔◌, ◌≢◌};
ghost use Rattle.search.specs.RowSets.{IsRowSet, HasRow, Tells, row-set-prop};

use permutations::rows::RowNumber;

// A set of rows: byte r is 128 where row r is of the set, and 0 elsewhere.
#[derive(Clone, Copy, PartialEq, Eq)]
pub struct RowSet {
    pub bytes: u64,
    pub ghost is_set: { IsRowSet bytes } by { row-set-prop bytes },
}

impl RowSet {
    // The set of no row.
    pub fn empty() -> RowSet
        ensures { result.bytes ≡ 0 }
    {
        RowSet { bytes: 0 }
    }

    // The first m rows.
    pub fn first_rows(m: usize) -> RowSet
        requires { m ≤ 8 }
        ensures { (x : ℕ) → HasRow result.bytes x ↔ (x < m) }
    {
        if m == 0 {
            return RowSet::empty();
        }
        RowSet {
            bytes: 0x8080_8080_8080_8080 >> (64 - 8 * m),
        }
    }

    // The set of one row.
    fn only(row: RowNumber) -> RowSet
        requires { row.0 < 8 }
        ensures { (x : ℕ) → HasRow result.bytes x ↔ (x ≡ row.0) }
    {
        RowSet {
            bytes: 128 << (8 * row.0),
        }
    }

    // Whether there is no row.
    pub fn is_empty(self) -> bool
        ensures { IsTrue result ↔ (self.bytes ≡ 0) }
    {
        self.bytes == 0
    }

    // Whether a row is of the set.
    pub fn has(self, row: RowNumber) -> bool
        requires { row.0 < 8 }
        ensures { Tells result (HasRow self.bytes row.0) }
    {
        (self.bytes >> (8 * row.0)) & 255 == 128
    }

    // The set with one row more.
    pub fn with(self, row: RowNumber) -> RowSet
        requires { row.0 < 8 }
        ensures { (x : ℕ) → HasRow result.bytes x ↔ (HasRow self.bytes x ⊎ (x ≡ row.0)) }
    {
        RowSet {
            bytes: self.bytes | RowSet::only(row).bytes,
        }
    }

    // The rows of both sets.
    pub fn both(self, other: RowSet) -> RowSet
        ensures { (x : ℕ) → HasRow result.bytes x ↔ (HasRow self.bytes x × HasRow other.bytes x) }
    {
        RowSet {
            bytes: self.bytes & other.bytes,
        }
    }

    // The set without a row.
    pub fn without(self, row: RowNumber) -> RowSet
        requires { row.0 < 8 }
        ensures { (x : ℕ) → HasRow result.bytes x ↔ (HasRow self.bytes x × (x ≢ row.0)) }
    {
        RowSet {
            bytes: self.bytes - (self.bytes & RowSet::only(row).bytes),
        }
    }

    // Whether a set of some rows has only one.
    pub fn is_lone(self) -> bool
        requires { self.bytes ≢ 0 }
        ensures { result ≡ true → (x y : ℕ) → HasRow self.bytes x → HasRow self.bytes y → x ≡ y }
    {
        self.bytes & (self.bytes - 1) == 0
    }

    // The first row of a set of some rows.
    pub fn first(self) -> RowNumber
        requires { self.bytes ≢ 0 }
        ensures { HasRow self.bytes result.0 }
    {
        RowNumber((self.bytes.trailing_zeros() / 8) as u8)
    }

    // Takes the first row out of the set, where there is one.
    pub fn pop_first(&mut self) -> Option<RowNumber>
        ensures { MatchOption result ((self.old.bytes ≡ 0) × (self.new.bytes ≡ 0)) (λ row. HasRow self.old.bytes row.0 × ((x : ℕ) → HasRow self.new.bytes x ↔ (HasRow self.old.bytes x × (x ≢ row.0)))) }
    {
        if self.is_empty() {
            return None;
        }
        let row = self.first();
        *self = self.without(row);
        Some(row)
    }
}
