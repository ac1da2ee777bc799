// What a run starts from.
ghost use Rattle.std.specs.Prelude.{◌≡◌, ◌*◌, ◌≤◌};

// What line 1 states, and how many bytes the register has.
#[derive(Clone, Copy)]
pub struct Start {
    pub rows: usize,
    pub columns: usize,
    pub top: usize,
    pub capacity: usize,
    pub length: usize,
    ghost few: { rows * columns ≤ 128 },
}

impl Start {
    // How many cells a grid has.
    pub fn size(self) -> usize
        ensures { (result ≡ self.rows * self.columns) × (result ≤ 128) }
    {
        self.rows * self.columns
    }
}
