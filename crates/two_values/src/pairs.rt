// Rows that dominate others: they differ in one pair of columns, or in two. In comments and names row a has the higher value in c, and
// row b in d.
ghost use Rattle.std.specs.Prelude.{◌≡◌, true, ◌-◌, ◌^◌, ◌≤◌, ◌<◌, IfSome};
ghost use Rattle.two_values.specs.Contests.{SidesIn};
ghost use Rattle.two_values.specs.Domination.{Alone, Crossed, ByOne, TwoPairs, ByTwo};

use crate::contests::Contest;

// Which of two rows is over the other.
#[derive(Clone, Copy)]
pub enum Side {
    First,
    Second,
}

// The value of the digit i of a word whose last digit is `last`.
fn digit(last: usize, i: usize) -> u32
    requires { (last ≤ 15) × (i ≤ last) }
    ensures { result ≡ 2 ^ (last - i) }
{
    1 << (last - i) as u32
}

// A column below n that a row's word has, if it has one.
fn column_of(word: u32, n: usize) -> Option<usize>
    requires { n ≤ 16 }
    ensures { IfSome result (λ c. (c < n) × (0 < word)) }
{
    let zeros = word.trailing_zeros() as usize;
    if zeros < 16 && 15 - zeros < n {
        Some(15 - zeros)
    } else {
        None
    }
}

impl Contest<'_> {
    // Whether no row placed tells column c from d, and row b alone has the lower value in c and the higher in d.
    fn is_alone(&self, b: usize, c: usize, d: usize) -> bool
        requires { (b < 8) × (c < 16) × (d < 16) }
        ensures { result ≡ true → Alone self.now.lows self.now.node.now.after b c d }
    {
        let first = self.lows[c];
        let second = self.lows[d];
        let both = first & second;
        self.node.after[c] == self.node.after[d] && both + digit(7, b) == first
    }

    // Whether row a has the higher value in column c and the lower in d, and row b the other way round.
    fn crossed(&self, a: usize, b: usize, c: usize, d: usize) -> bool
        requires { (a < 8) × (b < 8) × (c < 16) × (d < 16) }
        ensures { result ≡ true → Crossed self.now.grid.now.rows a b c d }
    {
        let rows = &self.grid.rows;
        rows[a * 16 + c] == 0
            && rows[a * 16 + d] == 1
            && rows[b * 16 + c] == 1
            && rows[b * 16 + d] == 0
    }

    // Whether row a dominates row b: they differ in columns c and d alone.
    fn by_one(&self, a: usize, b: usize, c: usize, d: usize) -> bool
        requires { (a < 8) × (b < 8) × (c < 16) × (d < 16) }
        ensures { result ≡ true → ByOne self.now.grid.now.rows self.now.words self.now.lows self.now.node.now.after a b c d }
    {
        let alone = self.is_alone(b, c, d);
        alone
            && self.crossed(a, b, c, d)
            && self.words[a] + digit(15, d) == self.words[b] + digit(15, c)
    }

    // Whether rows a and b differ so in columns c and d, and e and f, and in no others.
    fn two_pairs(&self, a: usize, b: usize, c: usize, d: usize, e: usize, f: usize) -> bool
        requires { (a < 8) × (b < 8) × (c < 16) × (d < 16) × (e < 16) × (f < 16) }
        ensures { result ≡ true → TwoPairs self.now.grid.now.rows self.now.words a b c d e f }
    {
        if c == e || d == f {
            return false;
        }
        self.crossed(a, b, c, d)
            && self.crossed(a, b, e, f)
            && self.words[a] + digit(15, d) + digit(15, f)
                == self.words[b] + digit(15, c) + digit(15, e)
    }

    // Whether row a dominates row b: they differ in columns c and d, and e and f.
    fn by_two(&self, a: usize, b: usize, c: usize, d: usize, e: usize, f: usize) -> bool
        requires { (a < 8) × (b < 8) × (c < 16) × (d < 16) × (e < 16) × (f < 16) }
        ensures { result ≡ true → ByTwo self.now.grid.now.rows self.now.words self.now.lows self.now.node.now.after a b c d e f }
    {
        self.is_alone(b, c, d) && self.is_alone(b, e, f) && self.two_pairs(a, b, c, d, e, f)
    }

    // Which of rows a and b dominates the other by columns c and d.
    fn side_by_one(&self, a: usize, b: usize, c: usize, d: usize) -> Option<Side>
        requires { (a < 8) × (b < 8) × (c < self.now.grid.now.n) × (d < self.now.grid.now.n) }
        ensures { SidesIn self.now a b result }
    {
        if self.by_one(a, b, c, d) {
            Some(Side::First)
        } else if self.by_one(b, a, d, c) {
            Some(Side::Second)
        } else {
            None
        }
    }

    // The same by columns c and d, and e and f.
    fn side_by_two(
        &self,
        a: usize,
        b: usize,
        c: usize,
        d: usize,
        e: usize,
        f: usize,
    ) -> Option<Side>
        requires { (a < 8) × (b < 8) × (c < self.now.grid.now.n) × (d < self.now.grid.now.n) × (e < self.now.grid.now.n) × (f < self.now.grid.now.n) }
        ensures { SidesIn self.now a b result }
    {
        if self.by_two(a, b, c, d, e, f) {
            Some(Side::First)
        } else if self.by_two(b, a, d, c, f, e) {
            Some(Side::Second)
        } else {
            None
        }
    }

    // Which of rows a and b is over the other: the first where they are equal, or else the one that dominates. Where each row has two higher
    // values that the other has not, both ways to pair the columns are tried.
    pub fn side(&self, a: usize, b: usize) -> Option<Side>
        requires { (a < 8) × (b < 8) }
        ensures { SidesIn self.now a b result }
    {
        let first = self.words[a];
        let second = self.words[b];
        if first == second {
            return Some(Side::First);
        }
        let n = self.grid.n;
        let both = first & second;
        let ours = first ^ both;
        let theirs = second ^ both;
        let c = column_of(ours, n)?;
        let d = column_of(theirs, n)?;
        let more = ours & (ours - 1);
        let rest = theirs & (theirs - 1);
        if more == 0 {
            return self.side_by_one(a, b, c, d);
        }
        if more & (more - 1) != 0 {
            return None;
        }
        let e = column_of(more, n)?;
        let f = column_of(rest, n)?;
        match self.side_by_two(a, b, c, d, e, f) {
            Some(side) => Some(side),
            None => self.side_by_two(a, b, c, f, e, d),
        }
    }
}
