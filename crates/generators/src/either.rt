// A source that is one of two.
ghost use Rattle.generators.specs.declared.either.Either.TheVariants.{First, Second};

use ring::Kind;
use sources::Source;

// One source or the other.
#[derive(Drop)]
pub enum Either<A, B> {
    First(A),
    Second(B),
}

impl<K: Kind, A: Source<K>, B: Source<K>> Source<K> for Either<A, B> {
    ghost kind_of = { elim [ First a ↦ A.Source.kind_of a | Second b ↦ B.Source.kind_of b ] };

    ghost list = { elim [ First a ↦ A.Source.list a | Second b ↦ B.Source.list b ] };

    #[inline]
    fn kind(&self) -> K {
        match self {
            Either::First(a) => a.kind(),
            Either::Second(b) => b.kind(),
        }
    }

    #[inline]
    fn next(&mut self) -> K::Elem {
        match self {
            Either::First(a) => a.next(),
            Either::Second(b) => b.next(),
        }
    }
}
