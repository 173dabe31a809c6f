// The run of a finding handed in, continued into a buffer.
#![tactic(auto)]

ghost use Rattle.std.specs.Prelude.{◌≡◌, ◌+◌, ◌-◌, ◌*◌, ◌<◌, ◌≤◌, length, if◌then◌else◌, nat_lt, slice_index_or};
ghost use Rattle.recurrence.specs.Memory.{at};
ghost use Rattle.recurrence.specs.Words.{words, run};
ghost use Rattle.continuation.specs.Calls.{RanOn};
ghost use Rattle.continuation.specs.Theorems.{RunOnForetells};
ghost use Rattle.continuation.specs.Filling.{Filled};

mod run;

use crate::run::Run;
use judging::Finding;
use memory::{Words, all_lawful};
use ring::{Kind, Refusal};

impl<'w, 'r, K: Kind> Run<'w, 'r, K> {
    // Channel c of the word that comes `back` words before word e + t, of the e words held and those that follow them in `out`.
    fn look(&self, out: &[K::Elem], t: usize, c: usize, back: usize) -> K::Elem
        requires within { back ≤ self.now.words.shape.count.words }
        requires channel { c < self.now.words.shape.channels }
        requires later { back ≤ t → (t - back) * self.now.words.shape.channels + c < length out.now }
        ensures { (z : K.Elem) → result ≡ (if nat_lt t back
            then words (K.ring self.now.words.kind) self.now.words.shape self.now.words.cells.now c (self.now.words.shape.count.words - (back - t))
            else slice_index_or out.now ((t - back) * self.now.words.shape.channels + c) z) }
    {
        let held = self.words.shape.count.words;
        if t < back {
            self.words.get(held - (back - t), c)
        } else {
            out[(t - back) * self.words.shape.channels + c]
        }
    }

    // Channel c of word e + t of the run: minus the sum of the products of the row's coefficients below the leading one and the words before that word.
    fn next_word(&self, out: &[K::Elem], t: usize, c: usize) -> K::Elem
        requires channel { c < self.now.words.shape.channels }
        requires room { t * self.now.words.shape.channels + c ≤ length out.now }
        requires filled { Filled (K.ring self.now.words.kind) self.now.words.shape self.now.words.cells.now (length self.now.row.now - 1) (at (K.ring self.now.words.kind) self.now.row.now) out.now (t * self.now.words.shape.channels + c) }
        ensures { result ≡ run (K.ring self.now.words.kind) self.now.words.shape.count.words (words (K.ring self.now.words.kind) self.now.words.shape self.now.words.cells.now) (length self.now.row.now - 1) (at (K.ring self.now.words.kind) self.now.row.now) c (self.now.words.shape.count.words + t) }
    {
        let kind = &self.words.kind;
        let row = self.row;
        let degree = row.len() - 1;
        let mut total = kind.zero();
        for (j, a) in row[..degree].iter().enumerate() {
            let x = self.look(out, t, c, degree - j);
            total = kind.add(total, kind.mul(*a, x));
        }
        kind.sub(kind.zero(), total)
    }

    // Fills `out` with the words that follow those held.
    fn fill(&self, out: &mut [K::Elem])
        ensures { Filled (K.ring self.now.words.kind) self.now.words.shape self.now.words.cells.now (length self.now.row.now - 1) (at (K.ring self.now.words.kind) self.now.row.now) out.new (length out.old) }
    {
        let n = self.words.shape.channels;
        for q in 0..out.len() {
            let x = self.next_word(out, q / n, q % n);
            out[q] = x;
        }
    }
}

// Fills the whole of `out` with the run's words from the first that is not held on, each channel by channel.
pub fn run_on<K: Kind>(
    finding: &Finding<'_, K>,
    cells: &[K::Elem],
    out: &mut [K::Elem],
) -> Result<(), Refusal>
    ensures { RanOn (K.ring finding.now.kind) finding.now.shape finding.now.«record».now.levels finding.now.cells.now cells.now out.old result out.new }
{
    let kind = finding.kind;
    let shape = finding.shape;
    if out.len() % shape.channels != 0 {
        return Err(Refusal::Channels);
    }
    if cells.len() < shape.capacity * shape.channels {
        return Err(Refusal::Short);
    }
    let lawful = all_lawful(&kind, &cells[..shape.count.words * shape.channels]);
    let sound = finding.judge(lawful)?;
    let words = Words { kind, shape, cells };
    let row = sound.row(0);
    Run { words, row }.fill(out);
    Ok(())
}

// By a finding of words of lists that obey a short enough polynomial, run on fills in the lists' later words. This computes nothing: to call it is to have the theorem.
pub fn run_on_foretells<K: Kind>(kind: &K)
    ensures { RunOnForetells (K.ring kind.now) }
{}
