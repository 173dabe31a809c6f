// The shortest polynomials of all levels that cancel the words of a capture, by the method of Berlekamp and Massey over a chain ring.
#![tactic(auto)]

ghost use Rattle.std.specs.Prelude.{◌≡◌, ℕ, suc, ◌+◌, ◌-◌, ◌*◌, ◌<◌, ◌≤◌, length};
ghost use Rattle.levels.specs.Rounds.{ToSolve, Solved};
ghost use Rattle.annihilator.specs.Calls.{Sought};

use levels::{begin_levels, keep_levels, reduce_levels};
use memory::Words;
use recurrence::{Record, Shape};
use ring::{Kind, Refusal};
use rows::clear;

// Degree by degree, until every level is found.
#[tactic(auto, using(crate::proofs::Findings::solved))]
fn solve<K: Kind>(
    words: &Words<K>,
    store: &mut [K::Elem],
    finding: &mut [K::Elem],
    table: &mut Record,
)
    requires { ToSolve (K.laws words.now.kind) words.now.shape words.now.cells.now finding.old store.old }
    ensures { Solved (K.laws words.now.kind) words.now.shape words.now.cells.now finding.new table.new.levels }
{
    let mut places = [0; 31];
    *table = Record::unfound();
    clear(&words.kind, store);
    begin_levels(&words.kind, words.shape, finding, words.kind.depth());
    for degree in 0..=words.shape.count.words {
        reduce_levels(words, store, finding, table, &mut places, degree);
        keep_levels(words, store, finding, table, &mut places, degree);
    }
}

// How many elements work memory has.
fn work_size(shape: Shape, depth: usize) -> usize
    requires { depth ≤ 31 }
    ensures { result ≡ (shape.count.words * shape.channels + 2 * depth + 12) * (shape.count.words + shape.channels + 1) }
{
    (shape.count.words * shape.channels + 2 * depth + 12) * (shape.count.words + shape.channels + 1)
}

// Finds, for each level below the depth, the shortest polynomial that cancels the words held. The record's place i then has its length,
// and the finding memory from i × (words + 1) on its coefficients.
pub fn find<K: Kind>(
    kind: &K,
    shape: Shape,
    words: &[K::Elem],
    table: &mut Record,
    finding: &mut [K::Elem],
    work: &mut [K::Elem],
) -> Result<(), Refusal>
    ensures { Sought (K.ring kind.now) shape words.now table.old.levels finding.old work.old result table.new.levels finding.new work.new }
{
    let depth = kind.depth();
    let rows = depth * (shape.count.words + 1);
    if finding.len() < rows || work.len() < work_size(shape, depth) {
        return Err(Refusal::Short);
    }
    let words = Words::new(*kind, shape, words)?;
    let cells = words.places() * (shape.count.words + 2);
    solve(&words, &mut work[..cells], &mut finding[..rows], table);
    Ok(())
}
