// Where bit polynomials are cut.
ghost use Rattle.std.specs.Prelude.{◌≤◌};

#[derive(Clone, Copy, Debug, PartialEq, Eq)]
pub struct Bits {
    pub depth: usize,
    ghost ok: { (1 ≤ depth) × (depth ≤ 31) },
}
