// The description of a kind of numbers modulo a power of a base.
ghost use Rattle.std.specs.Prelude.{◌≡◌, ◌^◌, ◌<◌, ◌≤◌};

use inverses::Base;

#[derive(Clone, Copy, Debug, PartialEq, Eq)]
pub struct Residue {
    pub base: Base,
    pub depth: usize,
    // The base to the power of the depth: how many elements there are.
    pub size: u32,
    ghost ok: { (1 ≤ depth) × (depth ≤ 31) × (size ≡ base.value ^ depth) × (1 < size) × (size ≤ 2 ^ 31) },
}
