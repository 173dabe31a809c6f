// The words of a capture, and a polynomial by which they go on.
ghost use Rattle.std.specs.Prelude.{◌-◌, ◌<◌, ◌≤◌, length};
ghost use Rattle.recurrence.specs.Memory.{at};
ghost use Rattle.recurrence.specs.Polynomials.{Lawful};

use memory::Words;
use ring::Kind;

// The row has the polynomial's coefficients, from the lowest to the leading one. No more words are read than are held.
#[derive(Drop)]
pub struct Run<'w, 'r, K: Kind> {
    pub words: Words<'w, K>,
    pub row: &'r [K::Elem],
    ghost polynomial: { Lawful (K.ring words.kind) (at (K.ring words.kind) row.now) },
    ghost short: { length row.now - 1 ≤ words.shape.count.words },
    ghost some: { 0 < length row.now },
}
