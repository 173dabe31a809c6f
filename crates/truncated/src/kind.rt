// The coefficients' base, and where polynomials are cut.
ghost use Rattle.std.specs.Prelude.{◌≤◌};

use inverses::Base;

#[derive(Clone, Copy, Debug, PartialEq, Eq)]
pub struct Truncated {
    pub base: Base,
    pub depth: usize,
    ghost ok: { (1 ≤ depth) × (depth ≤ 8) × (2 ≤ base.value) × (base.value ≤ 251) },
}
