// Registers and loops as they stand in lines: for the programs that run vectors of sources.
#![tactic(auto)]

ghost use Rattle.std.specs.Prelude.{◌≡◌};
ghost use Rattle.ring.specs.Refusals.{Call};
ghost use Rattle.registers.specs.Registers.{register_rows, loop_rows, Registers, Repeats};
ghost use Rattle.generators.specs.declared.Generator.TheVariants.{Register as Registered, Loop as Looped};

mod either;

pub use either::Either;
use lines::Fields;
use registers::{Loop, Register, check_loop, check_register};
use ring::{Kind, Refusal};
use sources::Source;
use std::alloc::Global;
use vectors::{Failure, Written, elements, number, size};

// What a generator is made of: a register's coefficients and first elements, or a loop's elements.
#[derive(Drop)]
pub enum Generator<K: Kind> {
    Register {
        kind: K,
        coefficients: Vec<K::Elem>,
        stages: Vec<K::Elem>,
    },
    Loop {
        kind: K,
        elements: Vec<K::Elem>,
    },
}

// A number of elements, and these.
fn counted<K: Written>(heap: Global, fields: &mut Fields<'_>) -> Result<Vec<K::Elem>, Failure> {
    let many = size(fields)?;
    elements::<K::Elem>(heap, fields, many)
}

impl<K: Written> Generator<K> {
    // A generator: base and depth, then `register` with its coefficients and stages, or another word with a loop's elements.
    pub fn read(heap: Global, fields: &mut Fields<'_>) -> Result<Generator<K>, Failure> {
        let base = number(fields);
        let depth = size(fields);
        let kind = K::make(base?, depth?).or(Err(Failure::Unreadable))?;
        match fields.word() {
            "register" => {
                let coefficients = counted::<K>(heap, fields)?;
                let stages = counted::<K>(heap, fields)?;
                Ok(Generator::Register {
                    kind,
                    coefficients,
                    stages,
                })
            }
            _ => {
                let elements = counted::<K>(heap, fields)?;
                Ok(Generator::Loop { kind, elements })
            }
        }
    }

    // What the check before it is made answers.
    pub fn check(&self) -> Result<(), Refusal>
        ensures { elim self.now [ Registered kind coefficients stages ↦ Call (register_rows (K.ring kind) coefficients.items stages.items) result (λ _. Unit {0}) (Unit {0}) | Looped kind elements ↦ Call (loop_rows (K.ring kind) elements.items) result (λ _. Unit {0}) (Unit {0}) ] }
    {
        match self {
            Generator::Register {
                kind,
                coefficients,
                stages,
            } => check_register(kind, coefficients.as_slice(), stages.as_slice()),
            Generator::Loop { kind, elements } => check_loop(kind, elements.as_slice()),
        }
    }

    // The source that is made of it, which keeps its elements in the stages.
    pub fn source<'g>(&'g mut self) -> Either<Register<'g, 'g, K>, Loop<'g, K>>
        ensures kind { elim self.old [ Registered kind _ _ ↦ ⟦<Either<Register<'g, 'g, K>, Loop<'g, K>> as Source<K>>⟧.kind_of result ≡ kind | Looped kind _ ↦ ⟦<Either<Register<'g, 'g, K>, Loop<'g, K>> as Source<K>>⟧.kind_of result ≡ kind ] }
        ensures list { elim self.old [ Registered kind coefficients stages ↦ Registers (K.ring kind) coefficients.items stages.items (⟦<Either<Register<'g, 'g, K>, Loop<'g, K>> as Source<K>>⟧.list result) | Looped kind elements ↦ Repeats (K.ring kind) elements.items (⟦<Either<Register<'g, 'g, K>, Loop<'g, K>> as Source<K>>⟧.list result) ] }
    {
        match self {
            Generator::Register {
                kind,
                coefficients,
                stages,
            } => Either::First(Register::new(
                *kind,
                coefficients.as_slice(),
                stages.as_mut_slice(),
            )),
            Generator::Loop { kind, elements } => {
                Either::Second(Loop::new(*kind, elements.as_slice()))
            }
        }
    }
}
