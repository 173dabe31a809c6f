// A prime base, one of those listed.
ghost use Rattle.std.specs.Prelude.{◌≡◌, T};
ghost use Rattle.inverses.specs.Bases.{listed, start as start_of};

#[derive(Clone, Copy, Debug, PartialEq, Eq)]
pub struct Base {
    pub value: u32,
    // Where the inverses of its remainders begin in the table.
    pub start: usize,
    ghost ok: { T (listed value) × (start ≡ start_of value) },
}
