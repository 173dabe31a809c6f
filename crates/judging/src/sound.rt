// A finding that has been judged.
ghost use Rattle.judging.specs.Judging.{Sound as IsSound};

use recurrence::{Record, Shape};
use ring::Kind;

// A finding that is not refused: there is room for it, its elements are lawful and it is in form.
#[derive(Drop)]
pub struct Sound<'f, K: Kind> {
    pub kind: K,
    pub shape: Shape,
    pub record: &'f Record,
    pub cells: &'f [K::Elem],
    ghost sound: { IsSound (K.ring kind) shape record.now.levels cells.now },
}
