// Permutations of rows or of columns: document 01's orders.
ghost use Rattle.std.specs.Prelude.{◌≡◌, ℕ, ◌<◌, ◌≤◌, get_or, set, take};
ghost use Rattle.permutations.specs.Permutations.{identity, swapped};
ghost use Rattle.permutations.specs.Padded.{is_sound, composed_padded, inverse_padded};
ghost use Rattle.permutations.specs.Numbered.{Lists, PartAt};

use std::marker::PhantomData;

// The number of what is put in order: of a row or of a column.
pub trait Number: Copy {
    ghost value: { Self → ℕ };

    fn new(number: u8) -> Self
        ensures { value result ≡ number };

    fn value(self) -> u8
        ensures { result ≡ value self };
}

// A permutation of `size` rows or columns, of which there are at most N: the first `size` positions list their numbers, the others hold
// their own.
#[derive(Clone, Copy)]
pub struct Permutation<I, const N: usize> {
    pub at: [u8; N],
    pub size: usize,
    pub of: PhantomData<I>,
}

impl<I: Number, const N: usize> Permutation<I, N> {
    // The permutation of these numbers.
    pub fn listed(at: [u8; N], size: usize) -> Permutation<I, N>
        ensures { Lists at.entry size result }
    {
        let of = PhantomData;
        Permutation { at, size, of }
    }

    // The permutation that moves nothing. A byte holds no number past 255: of more positions nothing is promised.
    pub fn identity(size: usize) -> Permutation<I, N>
        ensures { N ≤ 256 → Lists (identity N) size result }
    {
        let mut at = [0; N];
        for i in 0..N {
            at[i] = (i % 256) as u8;
        }
        Permutation::listed(at, size)
    }

    // The number at a position; 0 past the end.
    pub fn number(&self, i: usize) -> I
        ensures { I.value result ≡ get_or self.now.at i 0 }
    {
        I::new(if i < N { self.at[i] } else { 0 })
    }

    // The permutation with another number at a position; unchanged past the end.
    pub fn with(self, i: usize, number: I) -> Permutation<I, N>
        ensures { Lists (set self.at i (I.value number)) self.size result }
    {
        let mut out = self;
        out.set(i, number);
        out
    }

    // Writes another number at a position; nothing past the end.
    pub fn set(&mut self, i: usize, number: I)
        ensures { Lists (set self.old.at i (I.value number)) self.old.size self.new }
    {
        if i < N {
            self.at[i] = number.value();
        }
    }

    // The permutation with the numbers at two positions exchanged; past the end stands 0.
    pub fn swapped(self, i: usize, j: usize) -> Permutation<I, N>
        ensures { Lists (swapped self.at i j) self.size result }
    {
        let first = self.number(i);
        let second = self.number(j);
        let mut out = self;
        out.set(i, second);
        out.set(j, first);
        out
    }

    // Whether the size is 1 to N, and the first `size` positions list each number below it once.
    fn is_sound(&self) -> bool
        requires { N ≤ 256 }
        ensures { result ≡ is_sound N self.now.size self.now.at }
    {
        let size = self.size;
        if size == 0 || N < size {
            return false;
        }
        let listed = &self.at[..size];
        for k in 0..size {
            if !listed.contains(&(k as u8)) {
                return false;
            }
        }
        true
    }

    // Where i goes by another and then by this one.
    fn sent(&self, other: &Permutation<I, N>, i: usize) -> u8
        requires { (i < N) × (get_or other.now.at i 0 < N) }
        ensures { result ≡ get_or self.now.at (get_or other.now.at i 0) 0 }
    {
        self.at[other.at[i] as usize]
    }

    // This permutation followed by another: sends i to self(other(i)). The identity where the sizes differ or either is no permutation.
    // Of more than 256 positions nothing is promised.
    pub fn composed(self, other: Permutation<I, N>) -> Permutation<I, N>
        ensures { N ≤ 256 → Lists (composed_padded N self.size self.at other.size other.at) self.size result }
    {
        if 256 < N {
            return self;
        }
        let mut out = Permutation::identity(self.size);
        if self.size != other.size || !self.is_sound() || !other.is_sound() {
            return out;
        }
        for i in 0..self.size {
            out.at[i] = self.sent(&other, i);
        }
        out
    }

    // The permutation that, composed with this one on either side, moves nothing. The identity where this is no permutation. Of more
    // than 256 positions nothing is promised.
    pub fn inverse(self) -> Permutation<I, N>
        ensures { N ≤ 256 → Lists (inverse_padded N self.size self.at) self.size result }
    {
        if 256 < N {
            return self;
        }
        let mut out = Permutation::identity(self.size);
        if !self.is_sound() {
            return out;
        }
        for i in 0..self.size {
            out.at[self.at[i] as usize] = i as u8;
        }
        out
    }

    // The first of `count` positions at which the two differ.
    pub fn parting(&self, other: &Permutation<I, N>, count: usize) -> Option<usize>
        ensures { PartAt self.now.at other.now.at count result }
    {
        for i in 0..count {
            if self.number(i).value() != other.number(i).value() {
                return Some(i);
            }
        }
        None
    }

    // The first positions. Where there are not so many, nothing is promised.
    pub fn narrowed<const M: usize>(self) -> Permutation<I, M>
        ensures { M ≤ N → Lists (take M self.at) self.size result }
    {
        let mut at = [0; M];
        if M <= N {
            at.copy_from_slice(&self.at[..M]);
        }
        Permutation::listed(at, self.size)
    }
}
