// A polynomial in memory, beside the words that it is read on.
ghost use Rattle.places.specs.Places.{Row};

use memory::Words;
use ring::Kind;

// Its degree is at most `degree`, its coefficients are lawful, and there is room for degrees up to the number of words.
#[derive(Drop)]
pub struct Polynomial<'p, 'w, K: Kind> {
    pub words: &'p Words<'w, K>,
    pub row: &'p [K::Elem],
    pub degree: usize,
    ghost fits: { Row (K.laws words.now.kind) words.now.shape words.now.cells.now degree row.now },
}
