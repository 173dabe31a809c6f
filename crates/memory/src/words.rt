// The words that a capture holds, in memory that is lent.
ghost use Rattle.std.specs.Prelude.{◌*◌, ◌≤◌, length};
ghost use Rattle.recurrence.specs.Words.{words, LawfulWords};

use recurrence::Shape;
use ring::Kind;

// There is room for as many words as the capture may come to hold, and every word held is of lawful elements.
#[derive(Drop)]
pub struct Words<'w, K: Kind> {
    pub kind: K,
    pub shape: Shape,
    pub cells: &'w [K::Elem],
    ghost room: { shape.capacity * shape.channels ≤ length cells.now },
    ghost lawful: { LawfulWords (K.ring kind) shape.channels shape.count.words (words (K.ring kind) shape cells.now) },
}
