// Sources: pattern generators, known by their kind and an endless list of elements only.
#![tactic(auto)]

ghost use Rattle.std.specs.Prelude.{◌≡◌, ℕ, ◌+◌, T, length};
ghost use Rattle.ring.specs.Lawful.{hold as lawfully};
ghost use Rattle.ring.specs.Refusals.{Call};
ghost use Rattle.sources.specs.Makers.{draw_rows};
ghost use Rattle.recurrence.specs.Memory.{Written};

use ring::{Kind, Refusal};

pub mod adapters;
pub mod delay;

// A pattern generator. Neither call refuses, and whatever holds of a list holds of every source that has it.
pub trait Source<K: Kind> {
    // The kind of its elements, and the elements to come: the next one at 0.
    ghost kind_of: { Self → K };

    ghost list: { Self → ℕ → K.Elem };

    // Its kind; nothing changes, and every element to come is lawful in it.
    fn kind(&self) -> K
        ensures is { result ≡ kind_of self.now }
        ensures lawful { (t : ℕ) → T ((K.ring (kind_of self.now)).lawful (list self.now t)) };

    // The next element; afterwards the list begins at the one after it.
    fn next(&mut self) -> K::Elem
        ensures first { result ≡ list self.old 0 }
        ensures lawful { T ((K.ring (kind_of self.old)).lawful result) }
        ensures later { (t : ℕ) → list self.new t ≡ list self.old (t + 1) }
        ensures same { kind_of self.new ≡ kind_of self.old };
}

// A source that is lent.
impl<K: Kind, S: Source<K>> Source<K> for &mut S {
    ghost kind_of = { λ s. S.kind_of s.now };

    ghost list = { λ s t. S.list s.now t };

    fn kind(&self) -> K {
        (**self).kind()
    }

    fn next(&mut self) -> K::Elem {
        (**self).next()
    }
}

// An element as a lawful one: itself where it is lawful, else zero.
pub fn hold<K: Kind>(kind: &K, a: K::Elem) -> K::Elem
    ensures { result ≡ (lawfully (K.laws kind.now) a).0 }
{
    if kind.is_lawful(a) { a } else { kind.zero() }
}

// Passes over m elements.
fn skip<K: Kind, S: Source<K>>(source: &mut S, m: usize)
    ensures later { (t : ℕ) → S.list source.new t ≡ S.list source.old (m + t) }
    ensures same { S.kind_of source.new ≡ S.kind_of source.old }
{
    for _ in 0..m {
        source.next();
    }
}

// Writes the next m elements at out[from ..]; short if they do not fit, and then nothing changes.
pub fn draw<K: Kind, S: Source<K>>(
    source: &mut S,
    out: &mut [K::Elem],
    from: usize,
    m: usize,
) -> Result<(), Refusal>
    ensures { Call (draw_rows (length out.old) from m) result
        (λ _. Written out.old out.new from m (S.list source.old)
        × ((t : ℕ) → S.list source.new t ≡ S.list source.old (m + t))
        × (S.kind_of source.new ≡ S.kind_of source.old))
        ((out.new ≡ out.old) × (source.new ≡ source.old)) }
{
    if m > out.len() || from > out.len() - m {
        return Err(Refusal::Short);
    }
    for cell in &mut out[from..from + m] {
        *cell = source.next();
    }
    Ok(())
}
