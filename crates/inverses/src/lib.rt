// The bases of the coefficient kinds, and the inverse of each of their remainders.
#![tactic(auto)]

ghost use Rattle.std.specs.Prelude.{◌≡◌, [], ◌∷◌, T};
ghost use Rattle.ring.specs.Refusals.{Call};
ghost use Rattle.inverses.specs.Bases.{listed, Inverse};

mod base;
mod table;

pub use base::Base;
use ring::Refusal;
use table::INVERSES;

const BASES: [u32; 13] = [2, 3, 5, 7, 11, 13, 17, 19, 23, 29, 31, 127, 251];

impl Base {
    // The base `p`; refused if it is not listed.
    pub fn new(p: u32) -> Result<Base, Refusal>
        ensures { Call ((¬ T (listed p), Refusal.Base) ∷ []) result (λ b. b.value ≡ p) (Unit {0}) }
    {
        let mut start = 0;
        for base in BASES {
            if base == p {
                return Ok(Base { value: p, start });
            }
            start += base as usize;
        }
        Err(Refusal::Base)
    }

    // The inverse of the remainder `r`; 0 for 0, and for what is no remainder.
    pub fn inverse(self, r: u32) -> u32
        ensures { Inverse self.value r result }
    {
        if r < self.value {
            u32::from(INVERSES[self.start + r as usize])
        } else {
            0
        }
    }

    // Whether the other is the same base.
    pub fn same(self, other: Base) -> bool
        ensures yes { T result → self ≡ other }
        ensures only { self ≡ other → T result }
    {
        self == other
    }
}
