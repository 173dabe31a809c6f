// What every call does with memory that is lent to it.
#![tactic(auto)]

ghost use Rattle.std.specs.Prelude.{◌≡◌, ℕ, ◌+◌, ◌*◌, ◌/◌, ◌%◌, ◌<◌, ◌≤◌, T, [], ◌∷◌, length, slice_index_or};
ghost use Rattle.ring.specs.Refusals.{Call};
ghost use Rattle.recurrence.specs.Lent.{ShortWords, ForeignWords};
ghost use Rattle.recurrence.specs.Memory.{Unlawful, Written};
ghost use Rattle.recurrence.specs.Words.{words as words_of};

mod words;

use recurrence::Shape;
use ring::{Kind, Refusal};
pub use words::Words;

// Whether each element is lawful.
pub fn all_lawful<K: Kind>(kind: &K, xs: &[K::Elem]) -> bool
    ensures yes { T result → Unlawful (K.Kind.ring kind.now) xs.now (length xs.now) → ⊥ }
    ensures no { (T result → ⊥) → Unlawful (K.Kind.ring kind.now) xs.now (length xs.now) }
{
    xs.iter().all(|x| kind.is_lawful(*x))
}

// Writes a word from the place `from` on. For the crates above, which have found room for it.
pub fn put<E: Copy>(words: &mut [E], from: usize, word: &[E])
    requires { from + length word.now ≤ length words.old }
    ensures { (z : E) → Written words.old words.new from (length word.now) (λ i. slice_index_or word.now i z) }
{
    words[from..from + word.len()].copy_from_slice(word);
}

impl<'w, K: Kind> Words<'w, K> {
    // The words in these cells; short, and then foreign, where they lack something.
    pub fn new(kind: K, shape: Shape, cells: &'w [K::Elem]) -> Result<Words<'w, K>, Refusal>
        ensures { Call ((ShortWords shape cells.now, Refusal.Short) ∷ (ForeignWords (K.ring kind) shape cells.now, Refusal.Foreign) ∷ []) result
            (λ w. (w.kind ≡ kind) × (w.shape ≡ shape) × (w.cells.now ≡ cells.now)) (Unit {0}) }
    {
        if cells.len() < shape.capacity * shape.channels {
            return Err(Refusal::Short);
        }
        if !all_lawful(&kind, &cells[..shape.count.words * shape.channels]) {
            return Err(Refusal::Foreign);
        }
        Ok(Words { kind, shape, cells })
    }

    // How many elements the words held have: one for each place.
    pub fn places(&self) -> usize
        ensures is { result ≡ self.now.shape.count.words * self.now.shape.channels }
        ensures room { result ≤ length self.now.cells.now }
    {
        self.shape.count.words * self.shape.channels
    }

    // The element at a place: the channels of word 0, then those of word 1, and so on.
    pub fn at(&self, place: usize) -> K::Elem
        requires { place < self.now.shape.count.words * self.now.shape.channels }
        ensures lawful { T ((K.ring self.now.kind).lawful result) }
        ensures is { result ≡ words_of (K.ring self.now.kind) self.now.shape self.now.cells.now (place % self.now.shape.channels) (place / self.now.shape.channels) }
    {
        self.cells[place]
    }

    // Channel c of word k.
    pub fn get(&self, k: usize, c: usize) -> K::Elem
        requires word { k < self.now.shape.count.words }
        requires channel { c < self.now.shape.channels }
        ensures lawful { T ((K.ring self.now.kind).lawful result) }
        ensures is { result ≡ words_of (K.ring self.now.kind) self.now.shape self.now.cells.now c k }
    {
        self.at(k * self.shape.channels + c)
    }
}
