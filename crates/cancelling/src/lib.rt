// Trying a polynomial on the words of a capture: the sum at one place, the verdict over all places, and the polynomial made normal.
#![tactic(auto)]

ghost use Rattle.std.specs.Prelude.{◌≡◌, ℕ, ◌+◌, ◌<◌, ◌≤◌, T, ◌↔◌, length};
ghost use Rattle.ring.specs.Ring.{sum};
ghost use Rattle.recurrence.specs.Memory.{at, Unlawful, Written};
ghost use Rattle.recurrence.specs.Reductions.{Coefficients};
ghost use Rattle.recurrence.specs.Words.{words as words_of};
ghost use Rattle.ring.specs.Refusals.{Call};
ghost use Rattle.cancelling.specs.Trials.{reading, ZeroAt, Summed, Judged, Normalized};

mod trial;

use crate::trial::Trial;
use memory::{Words, all_lawful};
use recurrence::Shape;
use ring::{Kind, Refusal, is_zero};

impl<'w, 't, K: Kind> Trial<'w, 't, K> {
    // Refuses memory that is short, and words or coefficients that are not lawful.
    fn new(
        kind: K,
        shape: Shape,
        cells: &'w [K::Elem],
        taps: &'t [K::Elem],
    ) -> Result<Trial<'w, 't, K>, Refusal>
        ensures { Call (reading (K.ring kind) shape cells.now taps.now) result
            (λ t. (t.words.kind ≡ kind) × (t.words.shape ≡ shape) × (t.words.cells.now ≡ cells.now) × (t.taps.now ≡ taps.now)) (Unit {0}) }
    {
        let words = Words::new(kind, shape, cells)?;
        if !all_lawful(&kind, taps) {
            return Err(Refusal::Foreign);
        }
        Ok(Trial { words, taps })
    }

    // The sum of the coefficients with the words from word k on, channel c.
    fn sum_at(&self, k: usize, c: usize) -> K::Elem
        requires held { k + length self.now.taps.now ≤ self.now.words.shape.count.words }
        requires channel { c < self.now.words.shape.channels }
        ensures lawful { T ((K.ring self.now.words.kind).lawful result) }
        ensures is { result ≡ sum (K.ring self.now.words.kind) (length self.now.taps.now) (λ j. (K.ring self.now.words.kind).mul
            (at (K.ring self.now.words.kind) self.now.taps.now j)
            (words_of (K.ring self.now.words.kind) self.now.words.shape self.now.words.cells.now c (k + j))) }
    {
        let kind = &self.words.kind;
        let mut total = kind.zero();
        for (j, tap) in self.taps.iter().enumerate() {
            total = kind.add(total, kind.mul(*tap, self.words.get(k + j, c)));
        }
        total
    }

    // Whether the sum is zero at word k in every channel.
    fn word_cancelled(&self, k: usize) -> bool
        requires { k + length self.now.taps.now ≤ self.now.words.shape.count.words }
        ensures { T result ↔ ZeroAt (K.ring self.now.words.kind) self.now.words.shape self.now.words.cells.now self.now.taps.now (length self.now.taps.now) k }
    {
        (0..self.words.shape.channels).all(|c| is_zero(&self.words.kind, self.sum_at(k, c)))
    }

    // Whether it is at every word where all that it reads is held.
    fn all_cancelled(&self) -> bool
        ensures { T result ↔ ((k : ℕ) → k + length self.now.taps.now ≤ self.now.words.shape.count.words
            → ZeroAt (K.ring self.now.words.kind) self.now.words.shape self.now.words.cells.now self.now.taps.now (length self.now.taps.now) k) }
    {
        let m = self.taps.len();
        (m..self.words.shape.count.words + 1).all(|end| self.word_cancelled(end - m))
    }
}

// How many coefficients there are up to the last that is not zero.
fn coefficients<K: Kind>(kind: &K, taps: &[K::Elem]) -> usize
    ensures low { result ≤ length taps.now }
    ensures is { (Unlawful (K.ring kind.now) taps.now (length taps.now) → ⊥)
        → Coefficients (K.ring kind.now) result (at (K.ring kind.now) taps.now) }
{
    taps.iter()
        .rposition(|tap| !is_zero(kind, *tap))
        .map_or(0, |last| last + 1)
}

// The sum of the listed coefficients with the words from word k on, channel c.
pub fn cancelling_sum<K: Kind>(
    kind: &K,
    shape: &Shape,
    cells: &[K::Elem],
    taps: &[K::Elem],
    k: usize,
    c: usize,
) -> Result<K::Elem, Refusal>
    ensures { Summed (K.ring kind.now) shape.now cells.now taps.now k c result }
{
    if c >= shape.channels {
        return Err(Refusal::Channels);
    }
    let trial = Trial::new(*kind, *shape, cells, taps)?;
    if taps.len() > shape.count.words || k > shape.count.words - taps.len() {
        return Err(Refusal::Span);
    }
    Ok(trial.sum_at(k, c))
}

// Whether a polynomial cancels the words that are held.
pub fn cancels<K: Kind>(
    kind: &K,
    shape: &Shape,
    cells: &[K::Elem],
    taps: &[K::Elem],
) -> Result<bool, Refusal>
    ensures { Judged (K.ring kind.now) shape.now cells.now taps.now result }
{
    let words = Trial::new(*kind, *shape, cells, taps)?.words;
    let m = coefficients(kind, taps);
    let taps = &taps[..m];
    Ok(Trial { words, taps }.all_cancelled())
}

// Multiplies every coefficient by c.
fn scale<K: Kind>(kind: &K, taps: &mut [K::Elem], c: K::Elem)
    requires scalar { T ((K.ring kind.now).lawful c) }
    requires coefficients { Unlawful (K.ring kind.now) taps.old (length taps.old) → ⊥ }
    ensures { Written taps.old taps.new 0 (length taps.old) (λ j. (K.ring kind.now).mul c (at (K.ring kind.now) taps.old j)) }
{
    for tap in taps {
        *tap = kind.mul(c, *tap);
    }
}

// Multiplies a polynomial by the inverse of its leading coefficient's unit part, and answers that coefficient's valuation.
pub fn normalize<K: Kind>(kind: &K, taps: &mut [K::Elem]) -> Result<usize, Refusal>
    ensures { Normalized (K.ring kind.now) taps.old result taps.new }
{
    if !all_lawful(kind, taps) {
        return Err(Refusal::Foreign);
    }
    let m = coefficients(kind, taps);
    if m == 0 {
        return Err(Refusal::Stages);
    }
    let (valuation, unit) = kind.split(taps[m - 1]);
    scale(kind, taps, kind.inverse(unit));
    Ok(valuation)
}
