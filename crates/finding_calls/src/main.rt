// The finding of the words 2, 0, 2, 0 modulo 4, handed to every call on a finding: what is answered, and what is refused.
#![tactic(auto)]

use continuation::run_on;
use judging::Finding;
use recurrence::{Level, Record, Shape};
use remainder::try_on;
use residue::Residue;
use ring::Refusal;
use std::io;
use vectors::{Answer, Failure, yes_or_no};

const WORDS: [u32; 4] = [2, 0, 2, 0];

// y^2 + 3 at level 0, and 2 at level 1.
const CELLS: [u32; 10] = [3, 0, 1, 0, 0, 2, 0, 0, 0, 0];

// The same two polynomials for two words.
const PAIRS: [u32; 6] = [3, 0, 1, 2, 0, 0];

// A table with these lengths at levels 0 and 1.
fn lengths(first: usize, second: usize) -> Record {
    let mut table = Record::unfound();
    table.put(
        0,
        Level {
            length: first,
            found: true,
        },
    );
    table.put(
        1,
        Level {
            length: second,
            found: true,
        },
    );
    table
}

fn print_verdict(rt: &HostRuntime, verdict: Result<bool, Refusal>) -> io::Result<()> {
    rt.println(Answer(verdict.map(yes_or_no)))
}

fn print_all(rt: &HostRuntime, xs: &[u32]) -> io::Result<()> {
    for x in xs {
        print!(rt; " {x}")?;
    }
    rt.println("")
}

// What is left of a polynomial.
fn print_tried(rt: &HostRuntime, finding: &Finding<'_, Residue>, f: &mut [u32]) -> io::Result<()> {
    match try_on(finding, f) {
        Ok(n) => {
            print!(rt; "{n} left:")?;
            print_all(rt, f)
        }
        Err(refusal) => println!(rt; "refused {refusal}"),
    }
}

// What run on fills a buffer of three elements with.
fn print_next(rt: &HostRuntime, finding: &Finding<'_, Residue>) -> io::Result<()> {
    let mut out = [9; 3];
    match run_on(finding, &WORDS, &mut out) {
        Ok(()) => {
            print!(rt; "next:")?;
            print_all(rt, &out)
        }
        Err(refusal) => println!(rt; "refused {refusal}"),
    }
}

// The finding as it is.
fn print_answers(rt: &HostRuntime, finding: &Finding<'_, Residue>) -> io::Result<()> {
    print_verdict(rt, finding.settled())?;
    print_verdict(rt, finding.can_be_run_back())?;
    print_next(rt, finding)?;
    print_tried(rt, finding, &mut [3, 2, 0, 1, 0])?;
    print_tried(rt, finding, &mut [2, 0, 0, 2])?;
    print_tried(rt, finding, &mut [])
}

// What is handed in as a finding.
fn handed<'f>(
    kind: Residue,
    shape: Shape,
    record: &'f Record,
    cells: &'f [u32],
) -> Finding<'f, Residue> {
    Finding {
        kind,
        shape,
        record,
        cells,
    }
}

// Short, foreign, stages and span, in their order.
fn print_refusals(rt: &HostRuntime, kind: Residue, shape: Shape) -> io::Result<()> {
    let table = lengths(2, 0);
    let short = handed(kind, shape, &table, &CELLS[..9]);
    print_tried(rt, &short, &mut [4])?;
    let long = lengths(5, 0);
    let past = handed(kind, shape, &long, &CELLS);
    print_tried(rt, &past, &mut [4])?;
    print_tried(rt, &past, &mut [0; 257])?;
    let low = lengths(1, 0);
    let turned = handed(kind, shape, &low, &CELLS);
    print_tried(rt, &turned, &mut [0; 257])?;
    let finding = handed(kind, shape, &table, &CELLS);
    print_tried(rt, &finding, &mut [0; 257])
}

// The finding as it is, what is refused, and the finding of two channels.
fn hand_to_all(rt: &HostRuntime) -> Result<(), Failure> {
    let kind = Residue::new(2, 2)?;
    let shape = Shape::full(1, 4)?;
    let table = lengths(2, 0);
    print_answers(rt, &handed(kind, shape, &table, &CELLS))?;
    print_refusals(rt, kind, shape)?;
    // Two words of two channels: 2 and 2, 0 and 0.
    let pairs = handed(kind, Shape::full(2, 2)?, &table, &PAIRS);
    print_verdict(rt, pairs.settled())?;
    print_tried(rt, &pairs, &mut [0; 257])?;
    print_next(rt, &pairs)?;
    Ok(())
}

fn main(rt: HostRuntime) -> io::Result<()> {
    hand_to_all(&rt).or_else(|failure| failure.tell(&rt))
}
