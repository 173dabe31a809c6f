// A finding that is handed in.
use recurrence::{Record, Shape};
use ring::Kind;

// What is handed in as the finding of a capture of this shape: its table, and the memory of its rows. Nothing is known of it yet.
#[derive(Clone, Copy)]
pub struct Finding<'f, K: Kind> {
    pub kind: K,
    pub shape: Shape,
    pub record: &'f Record,
    pub cells: &'f [K::Elem],
}
