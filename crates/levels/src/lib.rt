// All levels at one degree: their polynomials are begun, reduced by what is kept, and kept themselves.
// The functions here ask what the crate above meets: no user of the library calls them.
#![tactic(auto)]

ghost use Rattle.std.specs.Prelude.{◌≡◌, ℕ, suc, ◌+◌, ◌*◌, ◌<◌, length};
ghost use Rattle.rows.specs.Rows.{Holds, constant};
ghost use Rattle.levels.specs.Levels.{row_of};
ghost use Rattle.levels.specs.Rounds.{ToReduce, Reduced, ToKeepAll, Ready};

use elimination::{eliminate, keep};
use memory::Words;
use places::{Polynomial, place_count, row_start};
use recurrence::{Level, Record, Shape};
use ring::Kind;
use rows::{begin_row, raise_row};

// Begins the polynomial of each level: step^i.
pub fn begin_levels<K: Kind>(kind: &K, shape: Shape, finding: &mut [K::Elem], depth: usize)
    requires { depth * (shape.count.words + 1) ≡ length finding.old }
    ensures { (i : ℕ) → i < depth → Holds (K.laws kind.now) (row_of shape finding.new i) (constant (K.laws kind.now) i) }
{
    for i in 0..depth {
        let a = row_start(i, shape.count.words + 1, depth, finding.len());
        let b = a + (shape.count.words + 1);
        begin_row(kind, &mut finding[a..b], i);
    }
}

// Every level at this degree: its polynomial is reduced by what is kept, until it cancels the words, and then the level is found, or is stuck.
pub fn reduce_levels<K: Kind>(
    words: &Words<K>,
    store: &[K::Elem],
    finding: &mut [K::Elem],
    table: &mut Record,
    places: &mut [usize; 31],
    degree: usize,
)
    requires { ToReduce (K.laws words.now.kind) words.now.shape words.now.cells.now degree finding.old table.old.levels places.old store.now }
    ensures { Reduced (K.laws words.now.kind) words.now.shape words.now.cells.now finding.new table.new.levels places.new degree store.now }
{
    let depth = words.kind.depth();
    let end = place_count(words.shape, degree);
    for i in 0..depth {
        if table.levels[i].found {
            continue;
        }
        let a = row_start(i, words.shape.count.words + 1, depth, finding.len());
        let b = a + (words.shape.count.words + 1);
        let place = eliminate(words, store, &mut finding[a..b], degree, places[i]);
        places[i] = place.unwrap_or(end);
        table.put(
            i,
            Level {
                length: degree,
                found: place.is_none(),
            },
        );
    }
}

// Every level after this degree: its polynomial is kept where it is stuck, and multiplied by y.
pub fn keep_levels<K: Kind>(
    words: &Words<K>,
    store: &mut [K::Elem],
    finding: &mut [K::Elem],
    table: &Record,
    places: &mut [usize; 31],
    degree: usize,
)
    requires { ToKeepAll (K.laws words.now.kind) words.now.shape words.now.cells.now degree finding.old table.now.levels places.old store.old }
    ensures { Ready (K.laws words.now.kind) words.now.shape words.now.cells.now finding.new table.now.levels places.new (suc degree) store.new }
{
    let depth = words.kind.depth();
    for i in 0..depth {
        if table.levels[i].found {
            continue;
        }
        let a = row_start(i, words.shape.count.words + 1, depth, finding.len());
        let b = a + (words.shape.count.words + 1);
        let polynomial = Polynomial {
            words,
            row: &finding[a..b],
            degree,
        };
        keep(store, &polynomial, places[i]);
        raise_row(&words.kind, &mut finding[a..b]);
        places[i] = places[i].saturating_sub(words.shape.channels);
    }
}
