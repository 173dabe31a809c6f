// One polynomial against those that are kept: a step on the way to the shortest polynomials that cancel a capture.
// The functions here ask what the crate above meets: no user of the library calls them.
#![tactic(auto)]

ghost use Rattle.elimination.specs.Stores.{ToEliminate, Eliminated, ToKeep, KeptOne};

use memory::Words;
use places::{Polynomial, row_start};
use ring::Kind;
use rows::{quotient, sub_scaled};

// Takes multiples of what is kept from the polynomial in row, of this degree and zero before the place `start`, until it is stuck: at which place. None if it cancels the words.
pub fn eliminate<K: Kind>(
    words: &Words<K>,
    store: &[K::Elem],
    row: &mut [K::Elem],
    degree: usize,
    start: usize,
) -> Option<usize>
    requires { ToEliminate (K.laws words.now.kind) words.now.shape words.now.cells.now degree start row.old store.now }
    ensures { Eliminated (K.laws words.now.kind) words.now.shape words.now.cells.now degree row.old row.new store.now result }
{
    let mut q = start;
    while let Some(first) = (Polynomial { words, row, degree }).first_nonzero(q) {
        let (at, value) = first;
        let a = row_start(at, words.shape.count.words + 2, words.places(), store.len());
        let b = a + (words.shape.count.words + 1);
        let Some(c) = quotient(&words.kind, value, store[b]) else {
            return Some(at);
        };
        sub_scaled(&words.kind, row, c, &store[a..b], degree);
        q = at + 1;
    }
    None
}

// Keeps the polynomial, which is zero before the place q, for q, if its value there has a smaller valuation than what is kept has.
pub fn keep<K: Kind>(store: &mut [K::Elem], polynomial: &Polynomial<K>, q: usize)
    requires { ToKeep (K.laws polynomial.now.words.now.kind) polynomial.now.words.now.shape polynomial.now.words.now.cells.now polynomial.now.degree q polynomial.now.row.now store.old }
    ensures { KeptOne (K.laws polynomial.now.words.now.kind) polynomial.now.words.now.shape polynomial.now.words.now.cells.now polynomial.now.degree q polynomial.now.row.now store.old store.new }
{
    let words = polynomial.words;
    let a = row_start(q, words.shape.count.words + 2, words.places(), store.len());
    let b = a + (words.shape.count.words + 1);
    let value = polynomial.value_at(q);
    let (own, _) = words.kind.split(value);
    let (kept, _) = words.kind.split(store[b]);
    if own < kept {
        store[a..b].copy_from_slice(polynomial.row);
        store[b] = value;
    }
}
