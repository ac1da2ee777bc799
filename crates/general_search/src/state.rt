// What the search goes over: a grid, a branch of the row orders, and what is known and found in it.
ghost use Rattle.std.specs.Prelude.{◌≡◌, ◌≤◌, ◌<◌, ◌↔◌, false, replicate, IsTrue, IsSomeAnd};

use permutations::orders::Orders;

// A grid of m rows and n columns that is searched, and whether the search looks ahead.
#[derive(Clone, Copy)]
pub struct Search<'a> {
    pub grid: &'a [u8],
    pub m: usize,
    pub n: usize,
    pub ahead: bool,
    ghost rows_fit: { m ≤ 8 },
    ghost columns_fit: { n ≤ 16 },
}

// A branch: the first k rows of `placed` are placed. Its columns are sorted by them, and `breaks` is true at each position whose column
// differs in them from the one before it.
#[derive(Clone, Copy)]
pub struct Branch {
    pub k: usize,
    pub placed: Orders<8>,
    pub breaks: [bool; 16],
}

// The best, and what is known of the candidates: those before position `from`, and those that `above` marks, come after it. Where
// `made` says so, the best is the candidate at `from`; there is a best in any case, so `made` is no Option.
#[derive(Clone, Copy)]
pub struct Bound {
    pub best: Orders<8>,
    pub from: usize,
    pub above: [bool; 8],
    pub made: bool,
}

impl Bound {
    // A bound of which nothing is known, where k rows are placed.
    pub fn unknown(best: Orders<8>, k: usize) -> Bound
        ensures { (result.best ≡ best) × (result.from ≡ k) × (result.above ≡ replicate 8 false) × (result.made ≡ false) }
    {
        Bound {
            best,
            from: k,
            above: [false; 8],
            made: false,
        }
    }
}

// The best, and the position that the search can go back to, if there is one: where that is before the number of rows placed, an
// arrangement of the branch equals the best one, whose row order begins with the same rows up to that position.
#[derive(Clone, Copy)]
pub struct Found {
    pub best: Orders<8>,
    pub back: Option<usize>,
}

impl Found {
    // Whether the search goes back to a position before k. It takes what was found by value, as `settled` does: a reference to it costs
    // small grids 1 to 3 percent.
    pub fn goes_back(self, k: usize) -> bool
        ensures { IsTrue result ↔ IsSomeAnd self.back (λ back. back < k) }
    {
        self.back.is_some_and(|back| back < k)
    }
}
