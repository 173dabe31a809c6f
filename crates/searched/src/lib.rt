// Captures that were searched, and the memory of what was found: for the programs that run captures.
#![tactic(auto)]

ghost use Rattle.std.specs.Prelude.{◌≡◌, IfOk, take};
ghost use Rattle.recurrence.specs.Findings.{Finding as FindingOf};
ghost use Rattle.recurrence.specs.Words.{words as words_of};

use annihilator::find;
use judging::Finding;
use recurrence::{Level, Record, Shape};
use ring::Kind;
use std::alloc::Global;
use vectors::{Failure, Written};

// The words of a capture, and the record and the memory of its finding.
#[derive(Drop)]
pub struct Searched<'w, K: Kind> {
    pub kind: K,
    pub shape: Shape,
    pub words: &'w [K::Elem],
    pub record: Record,
    pub cells: Vec<K::Elem>,
}

impl<'w, K: Written> Searched<'w, K> {
    // Finds the shortest polynomials of a capture, in memory that is taken from the heap.
    pub fn new(
        heap: Global,
        kind: K,
        shape: Shape,
        words: &'w [K::Elem],
    ) -> Result<Searched<'w, K>, Failure>
        ensures capture { IfOk result (λ s. (s.kind ≡ kind) × (s.shape ≡ shape) × (s.words.now ≡ words.now)) }
        ensures finding { IfOk result (λ s. FindingOf (K.ring kind) shape.count.words s.«record».levels s.cells.items shape.channels (words_of (K.ring kind) shape words.now)) }
    {
        let count = shape.count.words;
        let rows = count * shape.channels + 2 * kind.depth() + 12;
        let mut work = vec![in heap; kind.one(); rows * (count + shape.channels + 1)]?;
        let mut cells = vec![in heap; kind.one(); kind.depth() * (count + 1)]?;
        let mut record = Record::unfound();
        find(
            &kind,
            shape,
            words,
            &mut record,
            cells.as_mut_slice(),
            work.as_mut_slice(),
        )?;
        Ok(Searched {
            kind,
            shape,
            words,
            record,
            cells,
        })
    }

    // What was found, as it is handed to the calls on a finding.
    pub fn finding(&self) -> Finding<'_, K>
        ensures kind { (result.kind ≡ self.now.kind) × (result.shape ≡ self.now.shape) }
        ensures memory { (result.«record».now ≡ self.now.«record») × (result.cells.now ≡ self.now.cells.items) }
    {
        Finding {
            kind: self.kind,
            shape: self.shape,
            record: &self.record,
            cells: self.cells.as_slice(),
        }
    }

    // The levels of the kind.
    pub fn levels(&self) -> &[Level]
        ensures { result.now ≡ take (K.ring self.now.kind).depth self.now.«record».levels }
    {
        let depth = self.kind.depth();
        &self.record.levels[..depth]
    }
}
