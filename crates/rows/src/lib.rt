// Polynomials in memory: begun, multiplied by y, and taken from one another; and the quotient of two elements.
// The functions here ask what the crates above meet: no user of the library calls them.
#![tactic(auto)]

ghost use Rattle.std.specs.Prelude.{◌≡◌, ℕ, ◌-◌, ◌<◌, T, length, MatchOption};
ghost use Rattle.ring.specs.Commutative.{power as raise};
ghost use Rattle.ring.specs.Lawful.{Is, cells, lifted, step_of, hold, AllLawful};
ghost use Rattle.recurrence.proofs.Polynomials.{plus, shift};
ghost use Rattle.rows.specs.Rows.{Clear, Holds, constant, Quotient, ToScale, Lower};

use ring::Kind;

// step^i
pub fn step_power<K: Kind>(kind: &K, i: usize) -> K::Elem
    ensures { Is (K.laws kind.now) result (raise (lifted (K.laws kind.now)) (step_of (K.laws kind.now)) i) }
{
    let mut power = kind.one();
    for _ in 0..i {
        power = kind.mul(power, kind.step());
    }
    power
}

// c with a = b × c, if there is one.
pub fn quotient<K: Kind>(kind: &K, a: K::Elem, b: K::Elem) -> Option<K::Elem>
    requires a { T ((K.ring kind.now).lawful a) }
    requires b { T ((K.ring kind.now).lawful b) }
    ensures { MatchOption result (Lower (K.laws kind.now) a b) (λ c. Quotient (K.laws kind.now) a b c) }
{
    let (w, t) = kind.split(a);
    let (v, u) = kind.split(b);
    if w < v {
        return None;
    }
    let part = kind.mul(t, kind.inverse(u));
    let power = step_power(kind, w - v);
    Some(kind.mul(power, part))
}

// Takes c × other from row, where other has degree below `terms`.
pub fn sub_scaled<K: Kind>(
    kind: &K,
    row: &mut [K::Elem],
    c: K::Elem,
    other: &[K::Elem],
    terms: usize,
)
    requires { ToScale (K.laws kind.now) c row.old other.now terms }
    ensures { Holds (K.laws kind.now) row.new (plus (lifted (K.laws kind.now)) (cells (K.laws kind.now) row.old) ((lifted (K.laws kind.now)).⊖◌ (hold (K.laws kind.now) c)) (cells (K.laws kind.now) other.now)) }
{
    for (j, y) in other[..terms].iter().enumerate() {
        row[j] = kind.sub(row[j], kind.mul(c, *y));
    }
}

// Sets every element to zero.
pub fn clear<K: Kind>(kind: &K, cells: &mut [K::Elem])
    ensures { Clear (K.ring kind.now) cells.new }
{
    let zero = kind.zero();
    for cell in cells {
        *cell = zero;
    }
}

// The polynomial step^i.
pub fn begin_row<K: Kind>(kind: &K, row: &mut [K::Elem], i: usize)
    requires { 0 < length row.old }
    ensures { Holds (K.laws kind.now) row.new (constant (K.laws kind.now) i) }
{
    clear(kind, row);
    row[0] = step_power(kind, i);
}

// y times the polynomial in row, whose last coefficient is zero.
pub fn raise_row<K: Kind>(kind: &K, row: &mut [K::Elem])
    requires long { 0 < length row.old }
    requires lawful { AllLawful (K.laws kind.now) row.old }
    requires top { cells (K.laws kind.now) row.old (length row.old - 1) ≡ (lifted (K.laws kind.now)).𝟘 }
    ensures { Holds (K.laws kind.now) row.new (shift (lifted (K.laws kind.now)) 1 (cells (K.laws kind.now) row.old)) }
{
    let last = row.len() - 1;
    row.copy_within(0..last, 1);
    row[0] = kind.zero();
}
