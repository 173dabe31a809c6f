// Recurrences over chain rings: what a capture, a finding, a run and a reduction mean, and the theorems about them.
// Each theorem is the contract of a function that computes nothing: to call it is to have the theorem.
#![tactic(auto)]

ghost use Rattle.recurrence.specs.Theorems.{RecurrenceSettles, RunContinues, LengthsFall, RowsShortest, RowsCancelRun, RestTells, RestExists, RunForetells, StoreStands};

mod shape;
mod table;

use ring::Kind;
pub use shape::{Count, Level, Record, Shape};

// What cancels as many places of a list as a recurrence that the list obeys is long cancels all of them.
pub fn recurrence_settles<K: Kind>(kind: &K)
    ensures { RecurrenceSettles (K.Kind.ring kind.now) }
{}

// The run continues the words, and nothing else does.
pub fn run_continues<K: Kind>(kind: &K)
    ensures { RunContinues (K.Kind.ring kind.now) }
{}

// Lengths do not grow from level to level, and are at most the number of words.
pub fn lengths_fall<K: Kind>(kind: &K)
    ensures { LengthsFall (K.Kind.ring kind.now) }
{}

// The rows of a finding are shortest polynomials, and its table has the lengths.
pub fn rows_shortest<K: Kind>(kind: &K)
    ensures { RowsShortest (K.Kind.ring kind.now) }
{}

// Every row of a settled finding cancels the run.
pub fn rows_cancel_run<K: Kind>(kind: &K)
    ensures { RowsCancelRun (K.Kind.ring kind.now) }
{}

// A rest by a settled finding is zero exactly if the polynomial cancels the run.
pub fn rest_tells<K: Kind>(kind: &K)
    ensures { RestTells (K.Kind.ring kind.now) }
{}

// Every polynomial has a rest by a formed finding.
pub fn rest_exists<K: Kind>(kind: &K)
    ensures { RestExists (K.Kind.ring kind.now) }
{}

// A list that obeys a monic polynomial of degree D, and of which 2D words or more are held, is the run.
pub fn run_foretells<K: Kind>(kind: &K)
    ensures { RunForetells (K.Kind.ring kind.now) }
{}

// What is kept is complete from degree to degree, and a stuck polynomial is the best of its degree and level.
pub fn store_stands<K: Kind>(kind: &K)
    ensures { StoreStands (K.Kind.ring kind.now) }
{}
