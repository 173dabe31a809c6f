// The places of a capture, and the values of a polynomial there.
// The functions here ask what the crates above meet: no user of the library calls them.
#![tactic(auto)]

ghost use Rattle.std.specs.Prelude.{◌≡◌, ℕ, ◌+◌, ◌*◌, ◌/◌, ◌%◌, ◌<◌, ◌≤◌, length, slice_index_or, MatchOption};
ghost use Rattle.ring.specs.Lawful.{Is, cells};
ghost use Rattle.recurrence.proofs.Captures.{value, Zeros};
ghost use Rattle.recurrence.specs.Words.{place};
ghost use Rattle.places.specs.Places.{places, capture_of, Scanned};

mod polynomial;

pub use polynomial::Polynomial;
use recurrence::Shape;
use ring::{Kind, is_zero};

// The element at the place q of words of which nothing is known but their room. Where they are lawful, `Words::at` says so too.
pub fn read<E: Copy>(shape: Shape, words: &[E], q: usize) -> E
    requires room { shape.capacity * shape.channels ≤ length words.now }
    requires within { q < shape.count.words * shape.channels }
    ensures { (z : E) → result ≡ slice_index_or words.now (place shape (q / shape.channels) (q % shape.channels)) z }
{
    words[q]
}

// How many places count for a polynomial of this degree.
pub fn place_count(shape: Shape, degree: usize) -> usize
    requires { degree ≤ shape.count.words }
    ensures { result ≡ places shape degree }
{
    (shape.count.words - degree) * shape.channels
}

impl<'p, 'w, K: Kind> Polynomial<'p, 'w, K> {
    // The value at the place q.
    pub fn value_at(&self, q: usize) -> K::Elem
        requires { q < places self.now.words.now.shape self.now.degree }
        ensures { Is (K.laws self.now.words.now.kind) result (value (capture_of (K.laws self.now.words.now.kind) self.now.words.now.shape self.now.words.now.cells.now) (cells (K.laws self.now.words.now.kind) self.now.row.now) q) }
    {
        let words = self.words;
        let kind = &words.kind;
        let mut sum = kind.zero();
        for (j, coefficient) in self.row[..self.degree + 1].iter().enumerate() {
            let product = kind.mul(*coefficient, words.at(q + j * words.shape.channels));
            sum = kind.add(sum, product);
        }
        sum
    }

    // The first place from the start on where it is not zero, with its value there. None if there is none: it cancels the words.
    pub fn first_nonzero(&self, start: usize) -> Option<(usize, K::Elem)>
        requires start { start ≤ places self.now.words.now.shape self.now.degree }
        requires zeros { Zeros (capture_of (K.laws self.now.words.now.kind) self.now.words.now.shape self.now.words.now.cells.now) self.now.degree start (cells (K.laws self.now.words.now.kind) self.now.row.now) }
        ensures { MatchOption result
            (Zeros (capture_of (K.laws self.now.words.now.kind) self.now.words.now.shape self.now.words.now.cells.now) self.now.degree (places self.now.words.now.shape self.now.degree) (cells (K.laws self.now.words.now.kind) self.now.row.now))
            (λ p. Scanned (K.laws self.now.words.now.kind) self.now.words.now.shape self.now.words.now.cells.now self.now.degree self.now.row.now start p.0 p.1) }
    {
        for q in start..place_count(self.words.shape, self.degree) {
            let value = self.value_at(q);
            if !is_zero(&self.words.kind, value) {
                return Some((q, value));
            }
        }
        None
    }
}

// Where row i of rows of this width begins, in memory for `count` of them.
pub fn row_start(i: usize, width: usize, count: usize, size: usize) -> usize
    requires below { i < count }
    requires size { count * width ≡ size }
    ensures at { result ≡ i * width }
    ensures room { result + width ≤ size }
{
    width * i
}
