// Reads captures from standard input, one a line, finds the shortest polynomials of each, and prints what is determined.
#![tactic(auto)]

use continuation::run_on;
use judging::Finding;
use lines::Fields;
use recurrence::Shape;
use remainder::try_on;
use ring::Kind;
use searched::Searched;
use std::io;
use vectors::{Answer, Failure, Program, Written, elements, read_kind, run, size};

// The words that are printed of a run.
const NEXT: usize = 4;

// The words that come next.
fn print_next<K: Written, R: Print + AllocGlobal>(
    rt: &R,
    finding: &Finding<'_, K>,
    words: &[K::Elem],
) -> io::Result<()> {
    let mut next = vec![in rt.alloc(); finding.kind.one(); NEXT * finding.shape.channels]?;
    let answer = run_on(finding, words, next.as_mut_slice());
    print!(rt; " {}", Answer(answer.and(Ok("next"))))?;
    for a in next.iter() {
        print!(rt; " {a}")?;
    }
    Ok(())
}

// What is left of each polynomial that is tried.
fn print_tries<K: Written, R: Print + AllocGlobal>(
    rt: &R,
    finding: &Finding<'_, K>,
    fields: &mut Fields<'_>,
) -> io::Result<()> {
    let tries = fields.number().unwrap_or(0);
    if tries > 0 {
        rt.print(" left")?;
    }
    for _ in 0..tries {
        let many = fields.number().unwrap_or(0) as usize;
        let mut polynomial = match elements(rt.alloc(), fields, many) {
            Ok(polynomial) => polynomial,
            Err(Failure::System(error)) => return Err(error),
            Err(failure) => return print!(rt; " {failure}"),
        };
        print!(rt; " {}", Answer(try_on(finding, polynomial.as_mut_slice())))?;
    }
    Ok(())
}

#[derive(Drop)]
struct Captures;

impl Program for Captures {
    // Base, depth, channels, how many words, and these; and then the polynomials to try.
    fn carry_out<K: Written, R: Print + AllocGlobal>(
        rt: &R,
        fields: &mut Fields<'_>,
    ) -> Result<(), Failure> {
        let kind = read_kind::<K>(fields).or(Err(Failure::Unreadable))?;
        let channels = size(fields)?;
        let shape = Shape::full(channels, size(fields)?).or(Err(Failure::Unreadable))?;
        let words = elements(rt.alloc(), fields, shape.channels * shape.count.words)?;
        let searched = Searched::new(rt.alloc(), kind, shape, words.as_slice())?;
        rt.print("lengths")?;
        for level in searched.levels() {
            print!(rt; " {}", level.length)?;
        }
        let finding = searched.finding();
        match finding.settled() {
            Ok(true) => {
                rt.print(" settled")?;
                print_next(rt, &finding, words.as_slice())?;
                print_tries(rt, &finding, fields)?;
            }
            Ok(false) => rt.print(" unsettled")?,
            Err(refusal) => print!(rt; " refused {refusal}")?,
        }
        rt.println("")?;
        Ok(())
    }
}

fn main(rt: HostRuntime) -> io::Result<()> {
    run::<Captures>(&rt)
}
