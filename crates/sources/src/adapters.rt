// Sources built on any source: strides, sums and scalings. Each has a check that may refuse, and a maker that does not.
ghost use Rattle.std.specs.Prelude.{◌≡◌, ℕ, ◌+◌, ◌*◌, T};
ghost use Rattle.ring.specs.Refusals.{Call};
ghost use Rattle.recurrence.specs.Polynomials.{Obeys};
ghost use Rattle.sources.specs.Makers.{Makes, stride_rows, sum_rows, scaling_rows, strided, summed, scaled};

use crate::{Source, hold, skip};
use ring::{Kind, Refusal};

// The longest stride.
pub const LONGEST: usize = 65_536;

// Whether a stride by m may be made: span unless m is 1 to 65,536.
pub fn check_stride(m: usize) -> Result<(), Refusal>
    ensures { Call (stride_rows m) result (λ _. Unit {0}) (Unit {0}) }
{
    if m == 0 || m > LONGEST {
        Err(Refusal::Span)
    } else {
        Ok(())
    }
}

// Every m-th element of a source, the next one first.
#[derive(Drop)]
pub struct Stride<S> {
    inner: S,
    step: usize,
}

impl<S> Stride<S> {
    // The stride by m; of an m that is refused, zeros. A stride by 1 obeys what its source obeys.
    pub fn new<K: Kind>(inner: S, m: usize) -> Stride<S>
    where
        S: Source<K>,
        ensures inner { result.inner ≡ inner }
        ensures list { Makes (stride_rows m) (K.Kind.ring (S.kind_of inner)) (λ t. S.list inner (m * t)) (⟦<Stride<S> as Source<K>>⟧.list result) }
        ensures obeys { (D : ℕ) (q : ℕ → K.Elem) → m ≡ 1 → Obeys (K.Kind.ring (S.kind_of inner)) D q (S.list inner) → Obeys (K.Kind.ring (S.kind_of inner)) D q (⟦<Stride<S> as Source<K>>⟧.list result) }
    {
        let step = if check_stride(m).is_ok() { m } else { 0 };
        Stride { inner, step }
    }

    // The source that it moved.
    pub fn into_inner(self) -> S
        ensures { result ≡ self.inner }
    {
        let Stride { inner, step: _ } = self;
        inner
    }
}

impl<K: Kind, S: Source<K>> Source<K> for Stride<S> {
    ghost kind_of = { λ s. S.Source.kind_of s.inner };

    ghost list = { λ s t. strided (K.Kind.ring (S.Source.kind_of s.inner)) s.step (S.Source.list s.inner) t };

    fn kind(&self) -> K {
        self.inner.kind()
    }

    // Each of its elements moves its source by the stride.
    fn next(&mut self) -> K::Elem
        ensures first { result ≡ ⟦<Stride<S> as Source<K>>⟧.list self.old 0 }
        ensures lawful { T ((K.Kind.ring (⟦<Stride<S> as Source<K>>⟧.kind_of self.old)).lawful result) }
        ensures later { (t : ℕ) → ⟦<Stride<S> as Source<K>>⟧.list self.new t ≡ ⟦<Stride<S> as Source<K>>⟧.list self.old (t + 1) }
        ensures same { ⟦<Stride<S> as Source<K>>⟧.kind_of self.new ≡ ⟦<Stride<S> as Source<K>>⟧.kind_of self.old }
        ensures step { self.new.step ≡ self.old.step }
        ensures moved { (t : ℕ) → S.Source.list self.new.inner t ≡ S.Source.list self.old.inner (self.old.step + t) }
    {
        if self.step == 0 {
            return self.inner.kind().zero();
        }
        let word = self.inner.next();
        skip(&mut self.inner, self.step - 1);
        word
    }
}

// Whether the sum of two sources may be made: foreign unless they are of one kind.
pub fn check_sum<K: Kind, A: Source<K>, B: Source<K>>(a: &A, b: &B) -> Result<(), Refusal>
    ensures { Call (sum_rows (A.Source.kind_of a.now) (B.Source.kind_of b.now)) result (λ _. Unit {0}) (Unit {0}) }
{
    if a.kind().same(&b.kind()) {
        Ok(())
    } else {
        Err(Refusal::Foreign)
    }
}

// The sums of the elements of two sources.
#[derive(Drop)]
pub struct Sum<A, B> {
    a: A,
    b: B,
    alike: bool,
}

impl<A, B> Sum<A, B> {
    // The sum of two sources; of two that are refused, zeros of the first one's kind. It obeys what both of them obey.
    pub fn new<K: Kind>(a: A, b: B) -> Sum<A, B>
    where
        A: Source<K>,
        B: Source<K>,
        ensures parts { (result.a ≡ a) × (result.b ≡ b) }
        ensures list { Makes (sum_rows (A.Source.kind_of a) (B.Source.kind_of b)) (K.Kind.ring (A.Source.kind_of a)) (λ t. (K.Kind.ring (A.Source.kind_of a)).add (A.Source.list a t) (B.Source.list b t))
            (summed (K.Kind.laws (A.Source.kind_of result.a)) result.alike (A.Source.list result.a) (B.Source.list result.b)) }
        ensures obeys { (D : ℕ) (q : ℕ → K.Elem) → Obeys (K.Kind.ring (A.Source.kind_of a)) D q (A.Source.list a) → Obeys (K.Kind.ring (A.Source.kind_of a)) D q (B.Source.list b)
            → Obeys (K.Kind.ring (A.Source.kind_of a)) D q (summed (K.Kind.laws (A.Source.kind_of result.a)) result.alike (A.Source.list result.a) (B.Source.list result.b)) }
    {
        let alike = a.kind().same(&b.kind());
        Sum { a, b, alike }
    }

    // The two sources that it moved.
    pub fn into_parts(self) -> (A, B)
        ensures { (result.0 ≡ self.a) × (result.1 ≡ self.b) }
    {
        let Sum { a, b, alike: _ } = self;
        (a, b)
    }
}

impl<K: Kind, A: Source<K>, B: Source<K>> Source<K> for Sum<A, B> {
    ghost kind_of = { λ s. A.Source.kind_of s.a };

    ghost list = { λ s t. summed (K.Kind.laws (A.Source.kind_of s.a)) s.alike (A.Source.list s.a) (B.Source.list s.b) t };

    fn kind(&self) -> K {
        self.a.kind()
    }

    fn next(&mut self) -> K::Elem {
        let kind = self.a.kind();
        if !self.alike {
            return kind.zero();
        }
        let x = self.a.next();
        let y = self.b.next();
        let y = hold(&kind, y);
        kind.add(x, y)
    }
}

// Whether a source may be scaled by c: foreign unless c is lawful in its kind.
pub fn check_scaling<K: Kind, S: Source<K>>(source: &S, c: K::Elem) -> Result<(), Refusal>
    ensures { Call (scaling_rows (K.Kind.ring (S.kind_of source.now)) c) result (λ _. Unit {0}) (Unit {0}) }
{
    if source.kind().is_lawful(c) {
        Ok(())
    } else {
        Err(Refusal::Foreign)
    }
}

// The elements of a source, each times a fixed one.
#[derive(Drop)]
pub struct Scaling<S, E> {
    inner: S,
    by: E,
}

impl<S, E> Scaling<S, E> {
    // The source scaled by c; by a c that is refused, zeros. It obeys what its source obeys.
    pub fn new<K: Kind<Elem = E>>(inner: S, c: E) -> Scaling<S, E>
    where
        S: Source<K>,
        ensures inner { result.inner ≡ inner }
        ensures list { Makes (scaling_rows (K.Kind.ring (S.kind_of inner)) c) (K.Kind.ring (S.kind_of inner)) (λ t. (K.Kind.ring (S.kind_of inner)).mul c (S.list inner t))
            (scaled (K.Kind.laws (S.kind_of result.inner)) result.by (S.list result.inner)) }
        ensures obeys { (D : ℕ) (q : ℕ → E) → Obeys (K.Kind.ring (S.kind_of inner)) D q (S.list inner) → Obeys (K.Kind.ring (S.kind_of inner)) D q (scaled (K.Kind.laws (S.kind_of result.inner)) result.by (S.list result.inner)) }
    {
        let by = hold(&inner.kind(), c);
        Scaling { inner, by }
    }
}

impl<S, E: Drop> Scaling<S, E> {
    // The source that it moved.
    pub fn into_inner(self) -> S
        ensures { result ≡ self.inner }
    {
        let Scaling { inner, by: _ } = self;
        inner
    }
}

impl<K: Kind, S: Source<K>> Source<K> for Scaling<S, K::Elem> {
    ghost kind_of = { λ s. S.Source.kind_of s.inner };

    ghost list = { λ s t. scaled (K.Kind.laws (S.Source.kind_of s.inner)) s.by (S.Source.list s.inner) t };

    fn kind(&self) -> K {
        self.inner.kind()
    }

    fn next(&mut self) -> K::Elem {
        let kind = self.inner.kind();
        let word = self.inner.next();
        let by = hold(&kind, self.by);
        kind.mul(by, word)
    }
}
