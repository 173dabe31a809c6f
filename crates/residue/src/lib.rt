// The numbers modulo p^d, for a listed base p, as a kind of coefficients.
#![tactic(auto)]

ghost use Rattle.std.specs.Prelude.{◌≡◌, ◌^◌, ◌<◌, ◌≤◌, T, ◌⊎◌, [], ◌∷◌, Some, None};
ghost use Rattle.ring.specs.Refusals.{Call};
ghost use Rattle.inverses.specs.Bases.{listed};
ghost use Rattle.residue.specs.Modulo.{modulo, Parts};
ghost use Rattle.residue.specs.Laws.{laws as modulo_laws};

mod modulus;

use inverses::Base;
pub use modulus::Residue;
use ring::{Kind, Refusal};

// No kind has more elements than this.
const LARGEST: u32 = 1 << 31;

// The base to the power of `depth`, unless that is above 2^31.
fn power(base: Base, depth: usize) -> Option<u32>
    ensures { elim result [ Some m ↦ (m ≡ base.value ^ depth) × (m ≤ 2 ^ 31) | None ↦ 2 ^ 31 < base.value ^ depth ] }
{
    let depth = u32::try_from(depth).ok()?;
    base.value
        .checked_pow(depth)
        .filter(|size| *size <= LARGEST)
}

// The number of zero bits that `a` ends in, and what is above them.
fn split_binary(a: u32) -> (usize, u32)
    requires { 0 < a }
    ensures { Parts 2 a result.0 result.1 }
{
    let v = a.trailing_zeros();
    (v as usize, a >> v)
}

// How often the base divides `a`, and what is left then.
fn split_dividing(base: Base, a: u32) -> (usize, u32)
    requires { 0 < a }
    ensures { Parts base.value a result.0 result.1 }
{
    let mut v = 0;
    let mut u = a;
    while u % base.value == 0 {
        u /= base.value;
        v += 1;
    }
    (v, u)
}

impl Residue {
    // The numbers modulo `p`^`d`; refused if `p` is not listed, or else if `d` is 0 or there are more than 2^31 of them.
    pub fn new(p: u32, d: usize) -> Result<Residue, Refusal>
        ensures { Call ((¬ T (listed p), Refusal.Base) ∷ ((d ≡ 0) ⊎ (2 ^ 31 < p ^ d), Refusal.Depth) ∷ []) result (λ k. (k.base.value ≡ p) × (k.depth ≡ d)) (Unit {0}) }
    {
        let base = Base::new(p)?;
        if d == 0 {
            return Err(Refusal::Depth);
        }
        let size = power(base, d).ok_or(Refusal::Depth)?;
        Ok(Residue {
            base,
            depth: d,
            size,
        })
    }
}

impl Kind for Residue {
    type Elem = u32;

    ghost ring = { λ k. modulo k.base.value k.depth };

    ghost laws = { λ k. modulo_laws k.base.value k.depth k.base.ok.0 k.ok.0 k.ok.1 };

    fn zero(&self) -> u32 {
        0
    }

    fn one(&self) -> u32 {
        1
    }

    fn step(&self) -> u32 {
        self.base.value % self.size
    }

    fn add(&self, a: u32, b: u32) -> u32 {
        let sum = a.wrapping_add(b);
        sum.min(sum.wrapping_sub(self.size))
    }

    fn sub(&self, a: u32, b: u32) -> u32 {
        if a >= b {
            a - b
        } else {
            self.size.wrapping_sub(b - a)
        }
    }

    fn mul(&self, a: u32, b: u32) -> u32 {
        (u64::from(a) * u64::from(b) % u64::from(self.size)) as u32
    }

    fn split(&self, a: u32) -> (usize, u32) {
        if a == 0 {
            return (self.depth, 1);
        }
        if self.base.value == 2 {
            split_binary(a)
        } else {
            split_dividing(self.base, a)
        }
    }

    fn inverse(&self, u: u32) -> u32 {
        let two = self.add(1, 1);
        let mut w = self.base.inverse(u % self.base.value);
        let mut known = 1;
        while known < self.depth {
            w = self.mul(w, self.sub(two, self.mul(u, w)));
            known += known;
        }
        w
    }

    fn is_lawful(&self, a: u32) -> bool {
        a < self.size
    }

    fn depth(&self) -> usize {
        self.depth
    }

    fn same(&self, other: &Residue) -> bool {
        self == other
    }
}

#[cfg(test)]
mod tests {
    use super::*;

    fn refusal(p: u32, d: usize) -> Option<u8> {
        Residue::new(p, d).err().map(Refusal::number)
    }

    #[test]
    fn deepest(rt: HostRuntime) {
        assert_eq!(rt; (refusal(2, 31), refusal(2, 32)), (None, Some(2)));
        assert_eq!(rt; (refusal(3, 19), refusal(3, 20)), (None, Some(2)));
        assert_eq!(rt;
            (refusal(251, 3), refusal(251, usize::MAX)),
            (None, Some(2))
        );
    }

    #[test]
    fn base_before_depth(rt: HostRuntime) {
        assert_eq!(rt;
            (refusal(4, 0), refusal(u32::MAX, usize::MAX), refusal(2, 0)),
            (Some(1), Some(1), Some(2))
        );
    }
}
