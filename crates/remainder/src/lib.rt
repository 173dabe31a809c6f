// The reduction of a polynomial by a finding handed in.
#![tactic(auto)]

ghost use Rattle.std.specs.Prelude.{◌+◌, ◌-◌, ◌*◌, ◌<◌, ◌≤◌, T, length};
ghost use Rattle.recurrence.specs.Polynomials.{Lawful};
ghost use Rattle.recurrence.specs.Memory.{at, Written};
ghost use Rattle.recurrence.specs.Findings.{long, row};
ghost use Rattle.recurrence.specs.Reductions.{Rest, Coefficients};
ghost use Rattle.remainder.specs.Calls.{Tried};
ghost use Rattle.remainder.specs.Steps.{taken};
ghost use Rattle.remainder.specs.Theorems.{TryTells};

use judging::{Finding, Sound};
use memory::all_lawful;
use ring::{Kind, Refusal};

// f - u y^k times the row.
fn take_away<K: Kind>(kind: &K, f: &mut [K::Elem], k: usize, u: K::Elem, row: &[K::Elem])
    requires room { k + length row.now ≤ length f.old }
    requires unit { T ((K.ring kind.now).lawful u) }
    requires tried { Lawful (K.ring kind.now) (at (K.ring kind.now) f.old) }
    requires row { Lawful (K.ring kind.now) (at (K.ring kind.now) row.now) }
    ensures { Written f.old f.new k (length row.now) (taken (K.ring kind.now) (at (K.ring kind.now) f.old) k u (at (K.ring kind.now) row.now)) }
{
    for (i, y) in row.iter().enumerate() {
        f[k + i] = kind.sub(f[k + i], kind.mul(u, *y));
    }
}

// Leaves a rest of the polynomial f in its place, and answers how many coefficients are left.
fn reduce<K: Kind>(sound: &Sound<'_, K>, f: &mut [K::Elem]) -> usize
    requires { Lawful (K.ring sound.now.kind) (at (K.ring sound.now.kind) f.old) }
    ensures rest { Rest (K.ring sound.now.kind) (long sound.now.«record».now.levels)
        (row (K.ring sound.now.kind) sound.now.shape.count.words sound.now.«record».now.levels sound.now.cells.now)
        (at (K.ring sound.now.kind) f.new) (at (K.ring sound.now.kind) f.old) }
    ensures left { Coefficients (K.ring sound.now.kind) result (at (K.ring sound.now.kind) f.new) }
{
    let kind = &sound.kind;
    for m in (0..f.len()).rev() {
        let (v, u) = kind.split(f[m]);
        if v < kind.depth() {
            let degree = sound.length(v);
            if m < degree {
                return m + 1;
            }
            take_away(kind, f, m - degree, u, sound.row(v));
        }
    }
    0
}

// Reduces the polynomial f by the finding in the memory it lies in, and answers how many coefficients are left.
pub fn try_on<K: Kind>(finding: &Finding<'_, K>, f: &mut [K::Elem]) -> Result<usize, Refusal>
    ensures { Tried (K.ring finding.now.kind) finding.now.shape finding.now.«record».now.levels finding.now.cells.now f.old result f.new }
{
    let lawful = all_lawful(&finding.kind, f);
    let sound = finding.judge(lawful)?;
    if sound.length(0) > finding.shape.count.words / 2 {
        return Err(Refusal::Unsettled);
    }
    if f.len() > 256 {
        return Err(Refusal::Span);
    }
    Ok(reduce(&sound, f))
}

// By a settled finding of the words held, nothing is left of a polynomial that is tried exactly if it cancels the run. This computes nothing: to call it is to have the theorem.
pub fn try_tells<K: Kind>(kind: &K)
    ensures { TryTells (K.ring kind.now) }
{}
