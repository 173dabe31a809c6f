// Kind T: polynomials in x over the numbers modulo a base, cut at x^d, in eight places.
#![tactic(auto)]

ghost use Rattle.std.specs.Prelude.{◌≡◌, ℕ, ◌+◌, ◌-◌, ◌*◌, ◌%◌, ◌<◌, ◌≤◌, T, ◌⊎◌, [], ◌∷◌, length, slice_index};
ghost use Rattle.ring.specs.Refusals.{Call};
ghost use Rattle.inverses.specs.Bases.{listed};
ghost use Rattle.truncated.specs.Polynomials.{eight, polynomials};
ghost use Rattle.truncated.specs.Laws.{polynomials_laws};
ghost use Rattle.truncated.specs.Operations.{Leading, Filled, x_to, product_of};

mod kind;
mod polynomial;

use inverses::Base;
pub use kind::Truncated;
pub use polynomial::Polynomial;
use ring::{Kind, Refusal};
use std::array;

// x + y modulo p; where both are below p by comparing, else by a division.
fn sum_modulo(p: u8, x: u8, y: u8) -> u8
    requires { 1 ≤ p }
    ensures { result ≡ (x + y) % p }
{
    let (p, sum) = (u16::from(p), u16::from(x) + u16::from(y));
    let once = if sum < p { sum } else { sum - p };
    if once < p {
        once as u8
    } else {
        (sum % p) as u8
    }
}

// x - y modulo p, where the difference of two numbers modulo p is x + (p - 1) × y; where both are below p by comparing.
fn difference_modulo(p: u8, x: u8, y: u8) -> u8
    requires { 1 ≤ p }
    ensures { result ≡ (x + (p - 1) * y) % p }
{
    let once = if y <= x { x - y } else { p.wrapping_sub(y - x) };
    if once < p {
        once
    } else {
        ((u16::from(x) + u16::from(p - 1) * u16::from(y)) % u16::from(p)) as u8
    }
}

impl Truncated {
    // Polynomials over the numbers modulo `p`, cut at x^`d`; refused if `p` is not listed, or else if `d` is not 1 to 8.
    pub fn new(p: u32, d: usize) -> Result<Truncated, Refusal>
        ensures { Call ((¬ T (listed p), Refusal.Base) ∷ ((d ≡ 0) ⊎ (8 < d), Refusal.Depth) ∷ []) result (λ k. (k.base.value ≡ p) × (k.depth ≡ d)) (Unit {0}) }
    {
        let base = Base::new(p)?;
        if d == 0 || d > 8 {
            return Err(Refusal::Depth);
        }
        Ok(Truncated { base, depth: d })
    }

    // The base.
    fn modulus(self) -> u8
        ensures { result ≡ self.base.value }
    {
        self.base.value as u8
    }

    // x^i.
    fn monomial(self, i: usize) -> Polynomial
        ensures { result ≡ x_to self.base.value self.base.ok.0 self.depth i }
    {
        let mut coefficients = [0u8; 8];
        if i < self.depth {
            coefficients[i] = 1;
        }
        Polynomial { coefficients }
    }

    // The coefficient of x^k in a × b.
    fn product_at(self, a: Polynomial, b: Polynomial, k: usize) -> u8
        requires { k < 8 }
        ensures is { result ≡ (product_of self.base.value self.base.ok.0 self.depth a b k).0 }
        ensures below { result < self.base.value }
    {
        let sum: u32 = a.coefficients[..=k]
            .iter()
            .zip(b.coefficients[..=k].iter().rev())
            .map(|(x, y)| u32::from(*x) * u32::from(*y))
            .sum();
        (sum % self.base.value) as u8
    }

    // How many coefficients of `a` from the constant on are zero.
    fn valuation(self, a: Polynomial) -> usize
        ensures { Leading self.depth a.coefficients result }
    {
        a.coefficients[..self.depth]
            .iter()
            .position(|c| *c != 0)
            .unwrap_or(self.depth)
    }

    // `a` without its first `v` coefficients.
    fn moved_down(self, a: Polynomial, v: usize) -> Polynomial
        requires { v ≤ self.depth }
        ensures { Filled (λ j. slice_index a.coefficients (v + j)) result.coefficients (self.depth - v) }
    {
        let mut coefficients = [0u8; 8];
        coefficients[..self.depth - v].copy_from_slice(&a.coefficients[v..self.depth]);
        Polynomial { coefficients }
    }
}

impl Kind for Truncated {
    type Elem = Polynomial;

    ghost ring = { λ k. polynomials k.base.value k.base.ok.0 k.depth };

    ghost laws = { λ k. polynomials_laws k.base.value k.base.ok.0 k.depth k.ok.0 k.ok.1 };

    fn zero(&self) -> Polynomial {
        Polynomial {
            coefficients: [0u8; 8],
        }
    }

    fn one(&self) -> Polynomial {
        self.monomial(0)
    }

    fn step(&self) -> Polynomial {
        self.monomial(1)
    }

    fn add(&self, a: Polynomial, b: Polynomial) -> Polynomial {
        let p = self.modulus();
        Polynomial {
            coefficients: array::from_fn(
                |j|
                    requires { (j < 8) × (1 ≤ p) }
                {
                    if j < self.depth {
                        sum_modulo(p, a.coefficients[j], b.coefficients[j])
                    } else {
                        0
                    }
                },
            ),
        }
    }

    fn sub(&self, a: Polynomial, b: Polynomial) -> Polynomial {
        let p = self.modulus();
        Polynomial {
            coefficients: array::from_fn(
                |j|
                    requires { (j < 8) × (1 ≤ p) }
                {
                    if j < self.depth {
                        difference_modulo(p, a.coefficients[j], b.coefficients[j])
                    } else {
                        0
                    }
                },
            ),
        }
    }

    // Where the depth is one there is one product, which is to stay in a register of the machine: hence inlined.
    #[inline(always)]
    fn mul(&self, a: Polynomial, b: Polynomial) -> Polynomial {
        if self.depth == 1 {
            return Polynomial {
                coefficients: [self.product_at(a, b, 0), 0, 0, 0, 0, 0, 0, 0],
            };
        }
        Polynomial {
            coefficients: array::from_fn(
                |k|
                    requires { k < 8 }
                {
                    if k < self.depth {
                        self.product_at(a, b, k)
                    } else {
                        0
                    }
                },
            ),
        }
    }

    fn split(&self, a: Polynomial) -> (usize, Polynomial) {
        let v = self.valuation(a);
        if v == self.depth {
            return (v, self.one());
        }
        (v, self.moved_down(a, v))
    }

    fn inverse(&self, u: Polynomial) -> Polynomial {
        let constant = self.base.inverse(u32::from(u.coefficients[0]));
        let mut w = Polynomial {
            coefficients: [0; 8],
        };
        w.coefficients[0] = constant as u8;
        for k in 1..self.depth {
            let minus = self.base.value - u32::from(self.product_at(u, w, k));
            w.coefficients[k] = (minus * constant % self.base.value) as u8;
        }
        w
    }

    fn is_lawful(&self, a: Polynomial) -> bool {
        for j in 0..8usize {
            let bound = if j < self.depth { self.base.value } else { 1 };
            if a.coefficients[j] as u32 >= bound {
                return false;
            }
        }
        true
    }

    fn depth(&self) -> usize {
        self.depth
    }

    fn same(&self, other: &Truncated) -> bool {
        self == other
    }
}

#[cfg(test)]
mod tests {
    use super::*;
    use std::test::Fail;

    fn refusal(p: u32, d: usize) -> Option<u8> {
        Truncated::new(p, d).err().map(Refusal::number)
    }

    fn of(constant: u8, next: u8) -> Polynomial {
        Polynomial {
            coefficients: [constant, next, 0, 0, 0, 0, 0, 0],
        }
    }

    #[test]
    fn refuses(rt: HostRuntime) {
        assert_eq!(rt;
            (refusal(4, 9), refusal(3, 0), refusal(3, 9)),
            (Some(1), Some(2), Some(2))
        );
        assert_eq!(rt; (refusal(2, 8), refusal(251, 1)), (None, None));
    }

    #[test]
    fn modulo_three(rt: HostRuntime) -> Result<(), Fail> {
        let k = Truncated::new(3, 2).map_err(|_| Fail::new("refused"))?;
        assert_eq!(rt; k.mul(of(1, 1), of(2, 1)), of(2, 0));
        assert_eq!(rt; k.inverse(of(2, 1)), of(2, 2));
        assert_eq!(rt; k.split(of(0, 2)), (1, of(2, 0)));
        assert!(rt; !k.is_lawful(of(3, 0)));
        Ok(())
    }
}
