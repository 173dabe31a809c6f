// A delay line over memory that is lent: what goes in comes out again after as many others as the line is long.
ghost use Rattle.std.specs.Prelude.{◌≡◌, ℕ, ◌+◌, [], ◌∷◌, ◌++◌, length, take, drop};
ghost use Rattle.sources.specs.Window.{values, beyond};

// Its values lie in the first `len` cells, or in all where there are fewer: the oldest at the place `at`, those that came after it behind it,
// and then from the first cell on.
#[derive(Drop)]
pub struct DelayLine<'c, T> {
    cells: &'c mut [T],
    len: usize,
    at: usize,
}

impl<'c, T: Copy> DelayLine<'c, T> {
    // The line in the first `len` cells, or in all where there are fewer. They hold its values, the oldest first.
    pub fn new(cells: &'c mut [T], len: usize) -> DelayLine<'c, T>
        ensures values { values result ≡ take len cells.old }
        ensures cells { (result.cells.now ≡ cells.old) × (result.len ≡ len) }
        ensures lent { result.cells.ghost_name ≡ cells.entry.ghost_name }
    {
        DelayLine { cells, len, at: 0 }
    }

    // The values up to the last cell, the oldest first.
    pub fn older(&self) -> &[T]
        ensures { result.now ≡ drop self.now.at (take self.now.len self.now.cells.now) }
    {
        let end = self.len.min(self.cells.len());
        let start = self.at.min(end);
        &self.cells[start..end]
    }

    // The values after those, from the first cell on.
    pub fn newer(&self) -> &[T]
        ensures { result.now ≡ take self.now.at (take self.now.len self.now.cells.now) }
    {
        let end = self.len.min(self.cells.len()).min(self.at);
        &self.cells[..end]
    }

    // Puts x in as the newest value, and takes the oldest one out: x itself, where the line has no length.
    pub fn push(&mut self, x: T) -> T
        ensures shifted { (result ∷ values self.new) ≡ values self.old ++ (x ∷ []) }
        ensures beyond { beyond self.new ≡ beyond self.old }
        ensures size { (self.new.len ≡ self.old.len) × (length self.new.cells.now ≡ length self.old.cells.now) }
        ensures lent { self.new.cells.ghost_name ≡ self.old.cells.ghost_name }
    {
        let len = self.len.min(self.cells.len());
        if len == 0 {
            return x;
        }
        let at = if self.at < len { self.at } else { 0 };
        let oldest = self.cells[at];
        self.cells[at] = x;
        self.at = at + 1;
        oldest
    }
}
