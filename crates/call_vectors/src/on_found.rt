// The calls on a found capture.
use crate::State;
use crate::memories::{Memory, digest, front, put, size};
use capture::Found;
use lines::Fields;
use recurrence::Level;
use ring::{Kind, Refusal};
use std::alloc::Global;
use std::io;
use vectors::{Answer, Element, Failure, Written, elements, yes_or_no};

// How much of an answer is determined by the words: all of it, or what does not hang on the finding's lower coefficients.
#[derive(Clone, Copy)]
pub enum Determined {
    All,
    Part,
}

// A call, with how much of the finding and the words is handed in; or what the test itself puts into a memory.
#[derive(Drop)]
pub enum FoundCall<K: Kind> {
    Reopen,
    Settled {
        finding: usize,
    },
    CanBeRunBack {
        finding: usize,
        told: Determined,
    },
    TryOn {
        finding: usize,
        polynomial: Vec<K::Elem>,
        told: Determined,
    },
    RunOn {
        words: usize,
        finding: usize,
        buffer: Vec<K::Elem>,
        told: Determined,
    },
    PutWord {
        place: usize,
        element: K::Elem,
    },
    PutFinding {
        place: usize,
        element: K::Elem,
    },
    PutLevel {
        place: usize,
        level: Level,
    },
}

impl<K: Written> FoundCall<K> {
    pub fn read(
        heap: Global,
        kind: &K,
        word: &str,
        fields: &mut Fields<'_>,
    ) -> Result<FoundCall<K>, Failure> {
        Ok(match word {
            "reopen" => FoundCall::Reopen,
            "settled" => FoundCall::Settled {
                finding: size(fields),
            },
            "runs-back" => FoundCall::can_be_run_back(fields, Determined::All),
            "runs-back-any" => FoundCall::can_be_run_back(fields, Determined::Part),
            "try" => FoundCall::try_on(heap, fields, Determined::Part)?,
            "try-whole" => FoundCall::try_on(heap, fields, Determined::All)?,
            "run" => FoundCall::run_on(heap, kind, fields, Determined::All)?,
            "run-any" => FoundCall::run_on(heap, kind, fields, Determined::Part)?,
            "words" => FoundCall::PutWord {
                place: size(fields),
                element: K::Elem::read(fields)?,
            },
            "finding" => FoundCall::PutFinding {
                place: size(fields),
                element: K::Elem::read(fields)?,
            },
            "level" => FoundCall::PutLevel {
                place: size(fields),
                level: Level {
                    length: size(fields),
                    found: size(fields) == 1,
                },
            },
            _ => return Err(Failure::Unreadable),
        })
    }

    fn can_be_run_back(fields: &mut Fields<'_>, told: Determined) -> FoundCall<K> {
        let finding = size(fields);
        FoundCall::CanBeRunBack { finding, told }
    }

    fn try_on(
        heap: Global,
        fields: &mut Fields<'_>,
        told: Determined,
    ) -> Result<FoundCall<K>, Failure> {
        let finding = size(fields);
        let many = size(fields);
        let polynomial = elements(heap, fields, many)?;
        Ok(FoundCall::TryOn {
            finding,
            polynomial,
            told,
        })
    }

    fn run_on(
        heap: Global,
        kind: &K,
        fields: &mut Fields<'_>,
        told: Determined,
    ) -> Result<FoundCall<K>, Failure> {
        Ok(FoundCall::RunOn {
            words: size(fields),
            finding: size(fields),
            buffer: vec![in heap; kind.one(); size(fields)]?,
            told,
        })
    }
}

impl<K: Written> FoundCall<K> {
    // Carries the call out, and prints what it answers and what the memories hold then.
    pub fn carry_out<R: Print>(
        self,
        rt: &R,
        found: Found<K>,
        memory: &mut Memory<K>,
    ) -> io::Result<State<K>> {
        match self {
            FoundCall::Reopen => {
                rt.println("ok")?;
                return Ok(State::Taking(found.reopen()));
            }
            FoundCall::Settled { finding } => {
                let answer = found.settled(
                    &memory.record,
                    front(memory.finding.as_slice(), finding),
                );
                rt.println(Answer(answer.map(yes_or_no)))?;
            }
            FoundCall::CanBeRunBack { finding, told } => {
                run_back(rt, &found, memory, finding, told)?
            }
            FoundCall::TryOn {
                finding,
                polynomial,
                told,
            } => attempt(rt, &found, memory, finding, polynomial, told)?,
            FoundCall::RunOn {
                words,
                finding,
                buffer,
                told,
            } => run(rt, &found, memory, words, finding, buffer, told)?,
            FoundCall::PutWord { place, element } => {
                rt.println(put(memory.words.as_mut_slice(), place, element))?;
            }
            FoundCall::PutFinding { place, element } => {
                rt.println(put(memory.finding.as_mut_slice(), place, element))?;
            }
            FoundCall::PutLevel { place, level } => {
                memory.put_level(place, level);
                rt.println("put")?;
            }
        }
        Ok(State::Standing(found))
    }
}

fn run_back<K: Written, R: Print>(
    rt: &R,
    found: &Found<K>,
    memory: &Memory<K>,
    finding: usize,
    told: Determined,
) -> io::Result<()> {
    let answer = found.can_be_run_back(&memory.record, front(memory.finding.as_slice(), finding));
    rt.println(Answer(answer.map(|verdict| match told {
        Determined::All => yes_or_no(verdict),
        Determined::Part => "ok",
    })))
}

// Tries a polynomial, and prints all that is left of it or what stands above that.
fn attempt<K: Written, R: Print>(
    rt: &R,
    found: &Found<K>,
    memory: &Memory<K>,
    finding: usize,
    mut polynomial: Vec<K::Elem>,
    told: Determined,
) -> io::Result<()> {
    let answer = found.try_on(
        &memory.record,
        front(memory.finding.as_slice(), finding),
        polynomial.as_mut_slice(),
    );
    let whole = digest(0, polynomial.as_slice());
    match (answer, told) {
        (Ok(left), Determined::All) => println!(rt; "left {left} polynomial {whole}"),
        (Ok(left), Determined::Part) => {
            let above = polynomial.as_slice().get(left..).unwrap_or(&[]);
            println!(rt; "left {left} above {}", digest(0, above))
        }
        (Err(refusal), _) => println!(rt; "refused {refusal} polynomial {whole}"),
    }
}

// Runs on into the buffer, and prints what it holds then.
fn run<K: Written, R: Print>(
    rt: &R,
    found: &Found<K>,
    memory: &Memory<K>,
    words: usize,
    finding: usize,
    mut buffer: Vec<K::Elem>,
    told: Determined,
) -> io::Result<()> {
    let answer = found.run_on(
        front(memory.words.as_slice(), words),
        &memory.record,
        front(memory.finding.as_slice(), finding),
        buffer.as_mut_slice(),
    );
    match (answer, told) {
        (Ok(()), Determined::Part) => rt.println("ok"),
        (answer, _) => println!(rt;
            "{} buffer {}",
            Answer(answer.and(Ok("ok"))),
            digest(0, buffer.as_slice())
        ),
    }
}
