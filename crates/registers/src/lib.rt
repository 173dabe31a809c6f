// Registers and loops: sources that stand on lent memory. One text serves every kind.
#![tactic(auto)]

ghost use Rattle.std.specs.Prelude.{◌≡◌, ℕ, ◌+◌, ◌≤◌, T, length, take};
ghost use Rattle.ring.specs.declared.Refusal.{Refusal as Reason};
ghost use Rattle.ring.specs.Lawful.{AllLawful, lifted};
ghost use Rattle.ring.specs.Refusals.{Call, Passes, Refuses};
ghost use Rattle.sources.specs.Window.{values, beyond};
ghost use Rattle.registers.specs.Registers.{degree, register_rows, loop_rows, Registers, Repeats, dot as products, continued, repeated};

use memory::all_lawful;
use ring::{Kind, Refusal, is_equal};
use sources::delay::DelayLine;
use sources::{Source, hold};

// The most stages of a register.
pub const MOST: usize = 128;

// Whether a register may be made of these coefficients, the lowest first, and of the first elements in these stages.
// Short: fewer cells than stages. Foreign: a coefficient or first element that is not lawful. Stages: no coefficients, a last one that is
// not one, or more than 128 stages.
pub fn check_register<K: Kind>(
    kind: &K,
    coefficients: &[K::Elem],
    stages: &[K::Elem],
) -> Result<(), Refusal>
    ensures { Call (register_rows (K.ring kind.now) coefficients.now stages.now) result (λ _. Unit {0}) (Unit {0}) }
{
    let degree = coefficients.len().saturating_sub(1);
    if stages.len() < degree {
        return Err(Refusal::Short);
    }
    if !all_lawful(kind, coefficients) || !all_lawful(kind, &stages[..degree]) {
        return Err(Refusal::Foreign);
    }
    match coefficients.last() {
        Some(last) if degree <= MOST && is_equal(kind, *last, kind.one()) => Ok(()),
        _ => Err(Refusal::Stages),
    }
}

// The sum of the values, each times its coefficient.
fn dot<K: Kind>(kind: &K, coefficients: &[K::Elem], values: &[K::Elem]) -> K::Elem
    requires enough { length values.now ≤ length coefficients.now }
    requires coefficients { AllLawful (K.laws kind.now) coefficients.now }
    requires values { AllLawful (K.laws kind.now) values.now }
    ensures { result ≡ (products (K.laws kind.now) coefficients.now values.now).0 }
{
    let mut sum = kind.zero();
    for (coefficient, value) in coefficients.iter().zip(values) {
        sum = kind.add(sum, kind.mul(*coefficient, *value));
    }
    sum
}

// A register: its coefficients, the lowest first, and its stages in lent memory. All of them are lawful.
#[derive(Drop)]
pub struct Register<'t, 'c, K: Kind> {
    kind: K,
    coefficients: &'t [K::Elem],
    line: DelayLine<'c, K::Elem>,
    ghost enough: { line.len ≤ length coefficients.now },
    ghost lawful_coefficients: { AllLawful (K.laws kind) coefficients.now },
    ghost lawful_stages: { AllLawful (K.laws kind) (values line) },
}

impl<'t, 'c, K: Kind> Register<'t, 'c, K> {
    // The register of these coefficients and of the first elements in the stages; of what is refused, zeros.
    // The cells past its stages are never written.
    pub fn new(
        kind: K,
        coefficients: &'t [K::Elem],
        stages: &'c mut [K::Elem],
    ) -> Register<'t, 'c, K>
        ensures kind { result.kind ≡ kind }
        ensures list { Registers (K.ring kind) coefficients.now stages.old (⟦<Register<'t, 'c, K> as Source<K>>⟧.list result) }
        ensures stages { Passes (register_rows (K.ring kind) coefficients.now stages.old) → result.line.len ≡ degree coefficients.now }
        ensures none { (e : Reason) → Refuses (register_rows (K.ring kind) coefficients.now stages.old) e → result.line.len ≡ 0 }
        ensures cells { result.line.cells.now ≡ stages.old }
        ensures lent { result.line.cells.ghost_name ≡ stages.entry.ghost_name }
    {
        let none = &coefficients[..0];
        let coefficients = check_register(&kind, coefficients, stages).map_or(
            none,
            |()| coefficients,
        );
        Register::begin(kind, coefficients, stages)
    }

    // The register of these coefficients and of the first elements in the stages, refused as `check_register` refuses.
    // The cells past its stages are never written.
    pub fn try_new(
        kind: K,
        coefficients: &'t [K::Elem],
        stages: &'c mut [K::Elem],
    ) -> Result<Register<'t, 'c, K>, Refusal>
        ensures { Call (register_rows (K.ring kind) coefficients.now stages.old) result
            (λ r. (r.kind ≡ kind) × Registers (K.ring kind) coefficients.now stages.old (⟦<Register<'t, 'c, K> as Source<K>>⟧.list r)
            × (r.line.len ≡ degree coefficients.now) × (r.line.cells.now ≡ stages.old) × (r.line.cells.ghost_name ≡ stages.entry.ghost_name))
            (Unit {0}) }
    {
        check_register(&kind, coefficients, stages)?;
        Ok(Register::begin(kind, coefficients, stages))
    }

    // The register of lawful coefficients and of the first elements in the stages, which are lawful.
    fn begin(kind: K, coefficients: &'t [K::Elem], stages: &'c mut [K::Elem]) -> Register<'t, 'c, K>
        requires coefficients { AllLawful (K.laws kind) coefficients.now }
        requires stages { AllLawful (K.laws kind) (take (degree coefficients.now) stages.now) }
        ensures kind { result.kind ≡ kind }
        ensures list { ⟦<Register<'t, 'c, K> as Source<K>>⟧.list result ≡ continued (K.laws kind) coefficients.now (take (degree coefficients.now) stages.old) }
        ensures stages { result.line.len ≡ degree coefficients.now }
        ensures cells { result.line.cells.now ≡ stages.old }
        ensures lent { result.line.cells.ghost_name ≡ stages.entry.ghost_name }
    {
        let line = DelayLine::new(stages, coefficients.len().saturating_sub(1));
        Register {
            kind,
            coefficients,
            line,
        }
    }

    // The element that follows those in the stages.
    fn following(&self) -> K::Elem
        ensures { result ≡ ((lifted (K.laws self.now.kind)).⊖◌ (products (K.laws self.now.kind) self.now.coefficients.now (values self.now.line))).0 }
    {
        let kind = &self.kind;
        let older = self.line.older();
        let rest = &self.coefficients[older.len()..];
        let sum = kind.add(
            dot(kind, self.coefficients, older),
            dot(kind, rest, self.line.newer()),
        );
        kind.sub(kind.zero(), sum)
    }
}

impl<'t, 'c, K: Kind> Source<K> for Register<'t, 'c, K> {
    ghost kind_of = { λ s. s.kind };

    ghost list = { λ s. continued (K.laws s.kind) s.coefficients.now (values s.line) };

    fn kind(&self) -> K {
        self.kind
    }

    // The cells past its stages stay as they are.
    fn next(&mut self) -> K::Elem
        ensures first { result ≡ ⟦<Register<'t, 'c, K> as Source<K>>⟧.list self.old 0 }
        ensures lawful { T ((K.ring self.old.kind).lawful result) }
        ensures later { (t : ℕ) → ⟦<Register<'t, 'c, K> as Source<K>>⟧.list self.new t ≡ ⟦<Register<'t, 'c, K> as Source<K>>⟧.list self.old (t + 1) }
        ensures same { self.new.kind ≡ self.old.kind }
        ensures beyond { beyond self.new.line ≡ beyond self.old.line }
        ensures size { (self.new.line.len ≡ self.old.line.len) × (length self.new.line.cells.now ≡ length self.old.line.cells.now) }
        ensures lent { self.new.line.cells.ghost_name ≡ self.old.line.cells.ghost_name }
    {
        let following = self.following();
        self.line.push(following)
    }
}

// Whether a loop may be made of these elements. Foreign: one that is not lawful. Span: none.
pub fn check_loop<K: Kind>(kind: &K, elements: &[K::Elem]) -> Result<(), Refusal>
    ensures { Call (loop_rows (K.ring kind.now) elements.now) result (λ _. Unit {0}) (Unit {0}) }
{
    if !all_lawful(kind, elements) {
        return Err(Refusal::Foreign);
    }
    if elements.is_empty() {
        return Err(Refusal::Span);
    }
    Ok(())
}

// A list in lent memory that is repeated.
#[derive(Drop)]
pub struct Loop<'t, K: Kind> {
    kind: K,
    elements: &'t [K::Elem],
    place: usize,
}

impl<'t, K: Kind> Loop<'t, K> {
    // The loop of these elements, from the first on; of what is refused, zeros.
    pub fn new(kind: K, elements: &'t [K::Elem]) -> Loop<'t, K>
        ensures kind { result.kind ≡ kind }
        ensures list { Repeats (K.ring kind) elements.now (⟦<Loop<'t, K> as Source<K>>⟧.list result) }
    {
        let elements = check_loop(&kind, elements).map_or(&elements[..0], |()| elements);
        Loop::begin(kind, elements)
    }

    // The loop of these elements, from the first on, refused as `check_loop` refuses.
    pub fn try_new(kind: K, elements: &'t [K::Elem]) -> Result<Loop<'t, K>, Refusal>
        ensures { Call (loop_rows (K.ring kind) elements.now) result
            (λ l. (l.kind ≡ kind) × Repeats (K.ring kind) elements.now (⟦<Loop<'t, K> as Source<K>>⟧.list l)) (Unit {0}) }
    {
        check_loop(&kind, elements)?;
        Ok(Loop::begin(kind, elements))
    }

    // The loop of these elements, from the first on.
    fn begin(kind: K, elements: &'t [K::Elem]) -> Loop<'t, K>
        ensures kind { result.kind ≡ kind }
        ensures list { ⟦<Loop<'t, K> as Source<K>>⟧.list result ≡ repeated (K.laws kind) elements.now 0 }
    {
        Loop {
            kind,
            elements,
            place: 0,
        }
    }
}

impl<K: Kind> Source<K> for Loop<'_, K> {
    ghost kind_of = { λ s. s.kind };

    ghost list = { λ s. repeated (K.laws s.kind) s.elements.now s.place };

    fn kind(&self) -> K {
        self.kind
    }

    fn next(&mut self) -> K::Elem {
        let elements = self.elements;
        let len = elements.len();
        if len == 0 {
            return self.kind.zero();
        }
        let place = self.place % len;
        self.place = place + 1;
        hold(&self.kind, elements[place])
    }
}
