// Coefficient kinds: finite chain rings, known by their meaning and their laws; and the refusals of the whole library.
#![tactic(auto)]

ghost use Rattle.std.specs.Prelude.{◌≡◌, ℕ, ◌≤◌, T, ◌↔◌, Some};
ghost use Rattle.std.specs.Fmt.{decimal};
ghost use Rattle.ring.specs.Ring.{Ring, Laws, Split, UnitOf};
ghost use Rattle.ring.specs.Refusals.{number, Call, tests};

use std::error::Error;
use std::fmt;

// Why a call is not carried out.
#[derive(Clone, Copy, Debug, PartialEq, Eq, Hash)]
pub enum Refusal {
    Base = 1,
    Depth = 2,
    Channels = 3,
    Short = 4,
    Full = 5,
    Foreign = 6,
    Back = 7,
    Stages = 8,
    Unsettled = 9,
    Line = 10,
    Span = 11,
}

impl Refusal {
    pub fn number(self) -> u8
        ensures { result ≡ number self }
    {
        self as u8
    }
}

// A refusal is printed as its number.
impl fmt::Display for Refusal {
    ghost output = { λ e. Some (decimal (number e)) };

    fn fmt<W: fmt::Write>(&self, f: &mut fmt::Formatter<W>) -> fmt::Result {
        write!(f, "{}", self.number())
    }
}

impl Error for Refusal {}

// The refusal of the first row whose test holds, if one does.
pub fn first(rows: &[(bool, Refusal)]) -> Result<(), Refusal>
    ensures { Call (tests rows.now) result (λ _. Unit {0}) (Unit {0}) }
{
    match rows.iter().find(|row| row.0) {
        Some(row) => Err(row.1),
        None => Ok(()),
    }
}

// A kind of coefficients. No function of a kind refuses; of elements that are not lawful it may answer anything.
pub trait Kind: Copy {
    type Elem: Copy;

    // What the kind means, and that it keeps the laws.
    ghost ring: { Self → Ring Self.Elem };

    ghost laws: { (k : Self) → Laws (ring k) };

    fn zero(&self) -> Self::Elem
        ensures { result ≡ (ring self.now).zero };

    fn one(&self) -> Self::Elem
        ensures { result ≡ (ring self.now).one };

    fn step(&self) -> Self::Elem
        ensures { result ≡ (ring self.now).step };

    fn add(&self, a: Self::Elem, b: Self::Elem) -> Self::Elem
        ensures { T ((ring self.now).lawful a) → T ((ring self.now).lawful b) → result ≡ (ring self.now).add a b };

    fn sub(&self, a: Self::Elem, b: Self::Elem) -> Self::Elem
        ensures { T ((ring self.now).lawful a) → T ((ring self.now).lawful b) → result ≡ (ring self.now).sub a b };

    fn mul(&self, a: Self::Elem, b: Self::Elem) -> Self::Elem
        ensures { T ((ring self.now).lawful a) → T ((ring self.now).lawful b) → result ≡ (ring self.now).mul a b };

    // The valuation v and a unit u with a = step^v × u.
    fn split(&self, a: Self::Elem) -> (usize, Self::Elem)
        ensures { T ((ring self.now).lawful a) → Split (ring self.now) a result.0 result.1 };

    // For a unit, the element whose product with it is one.
    fn inverse(&self, u: Self::Elem) -> Self::Elem
        ensures { (w : Self.Elem) → T ((ring self.now).lawful u) → T ((ring self.now).lawful w) → (ring self.now).mul u w ≡ (ring self.now).one → result ≡ w };

    fn is_lawful(&self, a: Self::Elem) -> bool
        ensures { result ≡ (ring self.now).lawful a };

    fn depth(&self) -> usize
        ensures is { result ≡ (ring self.now).depth }
        ensures high { result ≤ 31 };

    // Whether the other is the same kind.
    fn same(&self, other: &Self) -> bool
        ensures yes { T result → self.now ≡ other.now }
        ensures only { self.now ≡ other.now → T result };
}

// Whether a lawful element is a unit.
pub fn is_unit<K: Kind>(kind: &K, a: K::Elem) -> bool
    ensures { T ((K.Kind.ring kind.now).lawful a) → T result ↔ ((w : K.Elem) × UnitOf (K.Kind.ring kind.now) a w) }
{
    let (valuation, _) = kind.split(a);
    valuation == 0
}

// Whether a lawful element is zero.
pub fn is_zero<K: Kind>(kind: &K, a: K::Elem) -> bool
    ensures { T ((K.Kind.ring kind.now).lawful a) → T result ↔ (a ≡ (K.Kind.ring kind.now).zero) }
{
    let (valuation, _) = kind.split(a);
    valuation == kind.depth()
}

// Whether two lawful elements are equal.
pub fn is_equal<K: Kind>(kind: &K, a: K::Elem, b: K::Elem) -> bool
    ensures { T ((K.Kind.ring kind.now).lawful a) → T ((K.Kind.ring kind.now).lawful b) → T result ↔ (a ≡ b) }
{
    is_zero(kind, kind.sub(a, b))
}
