// A finding handed in: whether it is in form, settled, and can be run back.
#![tactic(auto)]

ghost use Rattle.std.specs.Prelude.{◌≡◌, ◌+◌, ◌*◌, ◌<◌, ◌≤◌, T, ◌↔◌, length, take, drop};
ghost use Rattle.ring.specs.Refusals.{Call};
ghost use Rattle.recurrence.specs.Memory.{at, Unlawful};
ghost use Rattle.recurrence.specs.Polynomials.{Lawful};
ghost use Rattle.recurrence.specs.Findings.{extent, long, Formed};
ghost use Rattle.judging.specs.Calls.{AskedSettled, AskedRunBack};
ghost use Rattle.judging.specs.Judging.{judging};

mod finding;
mod sound;

pub use finding::Finding;
use memory::all_lawful;
use recurrence::Shape;
use ring::{Kind, Refusal, is_equal, is_zero};
pub use sound::Sound;

impl<'f, K: Kind> Finding<'f, K> {
    // Whether a finding of lawful elements is in form.
    fn formed(&self) -> bool
        requires room { extent (K.ring self.now.kind) self.now.shape.count.words ≤ length self.now.cells.now }
        requires lawful { Unlawful (K.ring self.now.kind) self.now.cells.now (extent (K.ring self.now.kind) self.now.shape.count.words) → ⊥ }
        ensures { T result ↔ Formed (K.ring self.now.kind) self.now.shape.count.words self.now.«record».now.levels self.now.cells.now }
    {
        let words = self.shape.count.words;
        let cells = self.cells;
        let levels = &self.record.levels[..self.kind.depth()];
        let step = self.kind.step();
        let mut power = self.kind.one();
        for (i, level) in levels.iter().enumerate() {
            if level.length > words || !level.found {
                return false;
            }
            let leading = cells[i * (words + 1) + level.length];
            if !is_equal(&self.kind, leading, power) {
                return false;
            }
            power = self.kind.mul(power, step);
        }
        true
    }

    // Refuses a finding that is short, has an element that is not lawful or is not in form. `lawful` tells whether all else that the call reads is lawful.
    pub fn judge(&self, lawful: bool) -> Result<Sound<'f, K>, Refusal>
        ensures { Call (judging (K.ring self.now.kind) self.now.shape self.now.«record».now.levels self.now.cells.now lawful) result
            (λ s. (s.kind ≡ self.now.kind) × (s.shape ≡ self.now.shape) × (s.«record».now ≡ self.now.«record».now) × (s.cells.now ≡ self.now.cells.now)) (Unit {0}) }
    {
        let size = self.kind.depth() * (self.shape.count.words + 1);
        if self.cells.len() < size {
            return Err(Refusal::Short);
        }
        if !lawful || !all_lawful(&self.kind, &self.cells[..size]) {
            return Err(Refusal::Foreign);
        }
        if !self.formed() {
            return Err(Refusal::Stages);
        }
        Ok(Sound {
            kind: self.kind,
            shape: self.shape,
            record: self.record,
            cells: self.cells,
        })
    }

    // Whether a finding is settled: at least twice as many words are held as its level 0 is long.
    pub fn settled(&self) -> Result<bool, Refusal>
        ensures { AskedSettled (K.ring self.now.kind) self.now.shape self.now.«record».now.levels self.now.cells.now result }
    {
        let sound = self.judge(true)?;
        Ok(sound.length(0) <= self.shape.count.words / 2)
    }

    // Whether a finding can be run back: the lowest coefficient of its level 0 is not zero.
    pub fn can_be_run_back(&self) -> Result<bool, Refusal>
        ensures { AskedRunBack (K.ring self.now.kind) self.now.shape self.now.«record».now.levels self.now.cells.now result }
    {
        let row = self.judge(true)?.row(0);
        Ok(!is_zero(&self.kind, row[0]))
    }
}

impl<'f, K: Kind> Sound<'f, K> {
    // The length of a level. For the crates above, which name levels below the depth.
    pub fn length(&self, level: usize) -> usize
        requires { level < (K.ring self.now.kind).depth }
        ensures is { result ≡ long self.now.«record».now.levels level }
        ensures short { result ≤ self.now.shape.count.words }
    {
        self.record.levels[level].length
    }

    // The part of the finding with the polynomial of a level. For the crates above, which name levels below the depth.
    pub fn row(&self, level: usize) -> &'f [K::Elem]
        requires { level < (K.ring self.now.kind).depth }
        ensures is { result.now ≡ take (long self.now.«record».now.levels level + 1) (drop (level * (self.now.shape.count.words + 1)) self.now.cells.now) }
        ensures long { length result.now ≡ long self.now.«record».now.levels level + 1 }
        ensures lawful { Lawful (K.ring self.now.kind) (at (K.ring self.now.kind) result.now) }
    {
        row_of(&self.shape, self.cells, level, self.length(level))
    }
}

// The part of a finding with the polynomial of a level. Its callers have found room for it.
pub fn row_of<'a, E>(shape: &Shape, finding: &'a [E], level: usize, degree: usize) -> &'a [E]
    requires low { level < 31 }
    requires short { degree ≤ shape.now.count.words }
    requires room { level * (shape.now.count.words + 1) + degree < length finding.now }
    ensures is { result.now ≡ take (degree + 1) (drop (level * (shape.now.count.words + 1)) finding.now) }
    ensures long { length result.now ≡ degree + 1 }
{
    let start = level * (shape.count.words + 1);
    let end = start + degree + 1;
    &finding[start..end]
}
