// Kind B: polynomials in x over the field of two elements, cut at x^d, in one word with the coefficient of x^j in bit j.
#![tactic(auto)]

ghost use Rattle.std.specs.Prelude.{◌≡◌, ◌-◌, ◌^◌, ◌<◌, ◌≢◌, ◌⊎◌, [], ◌∷◌};
ghost use Rattle.ring.specs.Refusals.{Call};
ghost use Rattle.bits.specs.Bits.{bits};
ghost use Rattle.bits.specs.Laws.{bits_laws};

mod kind;

pub use kind::Bits;
use ring::{Kind, Refusal};

impl Bits {
    // Bit polynomials cut at x^`d`; refused if `p` is not 2, or else if `d` is not 1 to 31.
    pub fn new(p: u32, d: usize) -> Result<Bits, Refusal>
        ensures { Call ((p ≢ 2, Refusal.Base) ∷ ((d ≡ 0) ⊎ (31 < d), Refusal.Depth) ∷ []) result (λ k. k.depth ≡ d) (Unit {0}) }
    {
        if p != 2 {
            return Err(Refusal::Base);
        }
        if d == 0 || d > 31 {
            return Err(Refusal::Depth);
        }
        Ok(Bits { depth: d })
    }

    // The bits of all coefficients.
    fn mask(self) -> u32
        ensures { result ≡ 2 ^ self.depth - 1 }
    {
        (1u32 << self.depth) - 1
    }
}

impl Kind for Bits {
    type Elem = u32;

    ghost ring = { λ k. bits k.depth };

    ghost laws = { λ k. bits_laws k.depth k.ok.0 k.ok.1 };

    fn zero(&self) -> u32 {
        0
    }

    fn one(&self) -> u32 {
        1
    }

    fn step(&self) -> u32 {
        2 & self.mask()
    }

    fn add(&self, a: u32, b: u32) -> u32 {
        a ^ b
    }

    fn sub(&self, a: u32, b: u32) -> u32 {
        a ^ b
    }

    fn mul(&self, a: u32, b: u32) -> u32 {
        let mask = self.mask();
        let mut sum = 0;
        let mut moved = a;
        let mut rest = b;
        for _ in 0..self.depth {
            if rest & 1 == 1 {
                sum ^= moved;
            }
            moved = (moved << 1) & mask;
            rest >>= 1;
        }
        sum
    }

    fn split(&self, a: u32) -> (usize, u32) {
        if a == 0 {
            return (self.depth, 1);
        }
        let v = a.trailing_zeros();
        (v as usize, a >> v)
    }

    fn inverse(&self, u: u32) -> u32 {
        let mut w = 0;
        let mut rest = 1;
        for i in 0..self.depth {
            if rest & 1 == 1 {
                w ^= 1 << i;
                rest ^= u;
            }
            rest >>= 1;
        }
        w
    }

    fn is_lawful(&self, a: u32) -> bool {
        a <= self.mask()
    }

    fn depth(&self) -> usize {
        self.depth
    }

    fn same(&self, other: &Bits) -> bool {
        self == other
    }
}

#[cfg(test)]
mod tests {
    use super::*;
    use std::test::Fail;

    fn of_depth(d: usize) -> Result<Bits, Fail> {
        Bits::new(2, d).map_err(|_| Fail::new("refused"))
    }

    fn refusal(p: u32, d: usize) -> Option<u8> {
        Bits::new(p, d).err().map(Refusal::number)
    }

    #[test]
    fn refuses(rt: HostRuntime) {
        assert_eq!(rt; refusal(3, 32), Some(1));
        assert_eq!(rt; refusal(2, 0), Some(2));
        assert_eq!(rt; refusal(2, 32), Some(2));
        assert_eq!(rt; refusal(2, 31), None);
    }

    #[test]
    fn multiplies(rt: HostRuntime) -> Result<(), Fail> {
        let k = of_depth(4)?;
        assert_eq!(rt; k.mul(3, 7), 9);
        assert_eq!(rt; k.mul(9, 6), 6);
        assert_eq!(rt; k.inverse(3), 15);
        assert_eq!(rt; of_depth(1)?.step(), 0);
        Ok(())
    }

    #[test]
    fn splits(rt: HostRuntime) -> Result<(), Fail> {
        let k = of_depth(4)?;
        assert_eq!(rt; k.split(12), (2, 3));
        assert_eq!(rt; k.split(0), (4, 1));
        Ok(())
    }
}
