// How the elements of each kind stand in a line of numbers, and how a program carries out lines: for the programs that run vectors.
#![tactic(auto)]

ghost use Rattle.std.specs.Prelude.{◌≡◌, ℕ, List, [], ◌∷◌, T, ◌↔◌, ◌^◌, ◌<◌, ◌≢◌, ◌⊎◌, Result, IfOk, IfErr, if◌then◌else◌, codes, vec_len};
ghost use Rattle.std.proofs.Common.{rules};
ghost use Rattle.std.specs.Result.{result_ok};
ghost use Rattle.lines.specs.Lines.{Reads};
ghost use Rattle.vectors.specs.declared.Failure.TheVariants.{Unreadable, Refused};
ghost use Rattle.ring.specs.declared.Refusal.{Refusal as Reason};
ghost use Rattle.ring.specs.declared.Refusal.TheVariants.{Base, Depth};
ghost use Rattle.ring.specs.Refusals.{Call};
ghost use Rattle.inverses.specs.Bases.{listed};
ghost use Rattle.vectors.specs.Making.{Made};
ghost use Rattle.vectors.specs.Digests.{with_number, digest};

use bits::Bits;
use lines::Fields;
use residue::Residue;
use ring::{Kind, Refusal};
use std::alloc::{AllocError, AllocFailed, Global};
use std::error::Error;
use std::fmt::Display;
use std::io::{BufRead, BufReader};
use std::{fmt, io};
use truncated::{Polynomial, Truncated};

// Why a line is not carried out.
#[derive(Debug, Drop)]
pub enum Failure {
    Unreadable,
    Refused(Refusal),
    System(io::Error),
}

// What a program answers in place of carrying out the line.
impl fmt::Display for Failure {
    fn fmt<W: fmt::Write>(&self, f: &mut fmt::Formatter<W>) -> fmt::Result {
        match self {
            Failure::Unreadable => write!(f, "unreadable"),
            Failure::Refused(refusal) => write!(f, "refused {refusal}"),
            Failure::System(error) => write!(f, "{error}"),
        }
    }
}

impl Error for Failure {}

impl Failure {
    // Prints why something is not carried out; what the system refuses ends the program.
    pub fn tell<R: Print>(self, rt: &R) -> io::Result<()> {
        match self {
            Failure::System(error) => Err(error),
            failure => rt.println(failure),
        }
    }
}

impl From<Refusal> for Failure {
    ghost from_gives = { λ refusal e. e ≡ Refused refusal };

    fn from(refusal: Refusal) -> Failure {
        Failure::Refused(refusal)
    }
}

impl From<io::Error> for Failure {
    fn from(error: io::Error) -> Failure {
        Failure::System(error)
    }
}

impl From<AllocError> for Failure {
    fn from(error: AllocError) -> Failure {
        Failure::System(io::Error::from(error))
    }
}

impl<T: Drop> From<AllocFailed<T>> for Failure {
    fn from(failed: AllocFailed<T>) -> Failure {
        Failure::from(AllocError::from(failed))
    }
}

// What a call answers, or the refusal.
#[derive(Clone, Copy)]
pub struct Answer<A>(pub Result<A, Refusal>);

impl<A: Display> fmt::Display for Answer<A> {
    fn fmt<W: fmt::Write>(&self, f: &mut fmt::Formatter<W>) -> fmt::Result {
        match &self.0 {
            Ok(answer) => write!(f, "{answer}"),
            Err(refusal) => write!(f, "refused {refusal}"),
        }
    }
}

// A verdict as it is printed.
pub fn yes_or_no(verdict: bool) -> &'static str
    ensures { result.now ≡ if verdict then codes "yes" else codes "no" }
{
    if verdict { "yes" } else { "no" }
}

// The next number of a line.
pub fn number(fields: &mut Fields<'_>) -> Result<u32, Failure>
    ensures number { Reads fields.old.rest.now fields.new.rest.now (result_ok result) }
    ensures none { IfErr result (λ e. e ≡ Unreadable) }
{
    fields.number().ok_or(Failure::Unreadable)
}

// The next number of a line, as a size.
pub fn size(fields: &mut Fields<'_>) -> Result<usize, Failure>
    ensures number { Reads fields.old.rest.now fields.new.rest.now (result_ok result) }
    ensures none { IfErr result (λ e. e ≡ Unreadable) }
{
    Ok(number(fields)? as usize)
}

// An element that stands in a line as its numbers, and is printed as them.
pub trait Element: Copy + PartialEq + Display {
    ghost numbers: { Self → List ℕ };

    // The next element of a line.
    fn read(fields: &mut Fields<'_>) -> Result<Self, Failure>;

    // d × 31 + c modulo 2^32, from this d on, for each number c of the element.
    fn digest(self, from: u32) -> u32
        ensures { result ≡ digest from (numbers self) };

    // An element is equal to itself only.
    ghost same: { (a : Self) → (b : Self) → T (Self.PartialEq.eq a b) ↔ (a ≡ b) };
}

// d × 31 + c modulo 2^32.
fn with_number(d: u32, c: u32) -> u32
    ensures { result ≡ with_number d c }
{
    d.wrapping_mul(31).wrapping_add(c)
}

impl Element for u32 {
    ghost numbers = { λ a. a ∷ [] };

    ghost same = { λ a b. Prim.search rules };

    fn read(fields: &mut Fields<'_>) -> Result<u32, Failure> {
        number(fields)
    }

    fn digest(self, from: u32) -> u32 {
        with_number(from, self)
    }
}

impl Element for Polynomial {
    ghost numbers = { λ a. a.coefficients };

    ghost same = { λ a b. Prim.search rules };

    fn read(fields: &mut Fields<'_>) -> Result<Polynomial, Failure> {
        let mut coefficients = [0u8; 8];
        for c in &mut coefficients {
            *c = u8::try_from(number(fields)?).or(Err(Failure::Unreadable))?;
        }
        Ok(Polynomial { coefficients })
    }

    fn digest(self, from: u32) -> u32 {
        self.coefficients
            .iter()
            .fold(from, |d, c| with_number(d, u32::from(*c)))
    }
}

// A kind whose elements can be read from a line and printed.
pub trait Written: Kind<Elem: Element> {
    // What is answered of a base and a depth.
    ghost made: { ℕ → ℕ → Result Self Reason → Type 0 };

    fn make(base: u32, depth: usize) -> Result<Self, Refusal>
        ensures { made base depth result };
}

impl Written for Residue {
    ghost made = { λ p d r. Call ((¬ T (listed p), Base) ∷ ((d ≡ 0) ⊎ (2 ^ 31 < p ^ d), Depth) ∷ []) r (λ k. (k.base.value ≡ p) × (k.depth ≡ d)) (Unit {0}) };

    fn make(base: u32, depth: usize) -> Result<Residue, Refusal> {
        Residue::new(base, depth)
    }
}

impl Written for Bits {
    ghost made = { λ p d r. Call ((p ≢ 2, Base) ∷ ((d ≡ 0) ⊎ (31 < d), Depth) ∷ []) r (λ k. k.depth ≡ d) (Unit {0}) };

    fn make(base: u32, depth: usize) -> Result<Bits, Refusal> {
        Bits::new(base, depth)
    }
}

impl Written for Truncated {
    ghost made = { λ p d r. Call ((¬ T (listed p), Base) ∷ ((d ≡ 0) ⊎ (8 < d), Depth) ∷ []) r (λ k. (k.base.value ≡ p) × (k.depth ≡ d)) (Unit {0}) };

    fn make(base: u32, depth: usize) -> Result<Truncated, Refusal> {
        Truncated::new(base, depth)
    }
}

// The kind of this base and depth.
pub fn read_kind<K: Written>(fields: &mut Fields<'_>) -> Result<K, Failure>
    ensures { Made (K.Written.made) fields.old.rest.now fields.new.rest.now result }
{
    let base = number(fields)?;
    let depth = size(fields)?;
    Ok(K::make(base, depth)?)
}

// So many elements, if the line has them.
pub fn elements<E: Element>(
    heap: Global,
    fields: &mut Fields<'_>,
    many: usize,
) -> Result<Vec<E>, Failure>
    ensures { IfOk result (λ v. vec_len v ≡ many) }
{
    let mut all = Vec::new(heap);
    for _i in 0..many {
        all.push(E::read(fields)?)?;
    }
    Ok(all)
}

// What a program does with a line, whichever kind it names.
pub trait Program {
    // One line, after the kind's letter.
    fn carry_out<K: Written, R: Print + AllocGlobal>(
        rt: &R,
        fields: &mut Fields<'_>,
    ) -> Result<(), Failure>;
}

// One line: the kind's letter, and what the program does with the rest.
fn line<P: Program, R: Print + AllocGlobal>(
    rt: &R,
    fields: &mut Fields<'_>,
) -> Result<(), Failure> {
    match fields.word() {
        "Z" => P::carry_out::<Residue, R>(rt, fields),
        "T" => P::carry_out::<Truncated, R>(rt, fields),
        "B" => P::carry_out::<Bits, R>(rt, fields),
        _ => Err(Failure::Unreadable),
    }
}

// Carries out the lines of standard input, and prints why one is not carried out.
pub fn run<P: Program>(rt: &HostRuntime) -> io::Result<()> {
    let heap = rt.alloc();
    for text in BufReader::new(heap, rt.stdin())?.lines(heap) {
        let text = text?;
        match line::<P, HostRuntime>(rt, &mut Fields::new(text.as_str())) {
            Ok(()) => {}
            Err(failure) => failure.tell(rt)?,
        }
    }
    Ok(())
}
