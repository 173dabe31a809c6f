// A polynomial that is tried on the words of a capture.
ghost use Rattle.std.specs.Prelude.{length};
ghost use Rattle.recurrence.specs.Memory.{Unlawful};

use memory::Words;
use ring::Kind;

// The coefficients are lawful, as the words are.
#[derive(Drop)]
pub struct Trial<'w, 't, K: Kind> {
    pub words: Words<'w, K>,
    pub taps: &'t [K::Elem],
    ghost coefficients: { Unlawful (K.ring words.kind) taps.now (length taps.now) → ⊥ },
}
