// Each row of the table of known findings, run through the search and the calls on what it finds.
#![tactic(auto)]

use annihilator::find;
use bits::Bits;
use continuation::run_on;
use judging::Finding;
use known::known_length;
use recurrence::{Record, Shape};
use remainder::try_on;
use residue::Residue;
use ring::{Kind, Refusal};
use std::io;
use truncated::{Polynomial, Truncated};
use vectors::{Failure, Written};

// A row of the table: its number, its capture, and the words that come next; and memory for what is found, and to work in.
#[derive(Drop)]
struct Row<'w, 'c, 'k, K: Kind> {
    number: usize,
    kind: K,
    shape: Shape,
    words: &'w [K::Elem],
    next: &'w [K::Elem],
    record: Record,
    cells: &'c mut [K::Elem],
    work: &'k mut [K::Elem],
}

fn print_verdict<R: Print>(rt: &R, what: &str, answer: Result<bool, Refusal>) -> io::Result<()> {
    match answer {
        Ok(true) => print!(rt; "; {what}"),
        Ok(false) => print!(rt; "; not {what}"),
        Err(refusal) => print!(rt; "; {what}: refused {refusal}"),
    }
}

impl<'w, 'c, 'k, K: Written> Row<'w, 'c, 'k, K> {
    // What was found, as it is handed to the calls on a finding.
    fn finding(&self) -> Finding<'_, K> {
        Finding {
            kind: self.kind,
            shape: self.shape,
            record: &self.record,
            cells: self.cells,
        }
    }

    // Finds the capture, and prints its lengths, each with the table's behind it, whether it is settled and whether the words come next
    // that are known.
    fn run<R: Print>(&mut self, rt: &R, out: &mut [K::Elem]) -> Result<(), Failure> {
        print!(rt; "row {}: ", self.number)?;
        find(
            &self.kind,
            self.shape,
            self.words,
            &mut self.record,
            self.cells,
            self.work,
        )?;
        rt.print("lengths")?;
        let depth = self.kind.depth();
        for (i, level) in self.record.levels.iter().take(depth).enumerate() {
            let known = known_length(self.number, i);
            print!(rt; " {} ({known})", level.length)?;
        }
        let finding = self.finding();
        print_verdict(rt, "settled", finding.settled())?;
        if !self.next.is_empty() {
            let answer = run_on(&finding, self.words, out);
            let as_known = answer.map(|()| *out == *self.next);
            print_verdict(rt, "next words as known", as_known)?;
        }
        rt.println("")?;
        Ok(())
    }
}

// Tries a polynomial, and prints how many coefficients are left.
fn print_tried<K: Kind, R: Print>(
    rt: &R,
    finding: &Finding<'_, K>,
    f: &mut [K::Elem],
) -> io::Result<()> {
    match try_on(finding, f) {
        Ok(left) => println!(rt; "  tried: {left} left"),
        Err(refusal) => println!(rt; "  tried: refused {refusal}"),
    }
}

fn linear(constant: u8, slope: u8) -> Polynomial {
    Polynomial {
        coefficients: [constant, slope, 0, 0, 0, 0, 0, 0],
    }
}

// The rows of numbers modulo 4.
fn modulo_four<R: Print>(rt: &R, kind: Residue) -> Result<(), Failure> {
    let rows: [(usize, &[u32], &[u32]); 5] = [
        (0, &[], &[0]),
        (3, &[0, 0, 1], &[]),
        (4, &[2, 0, 2, 0], &[2, 0]),
        (5, &[2], &[]),
        (6, &[1], &[]),
    ];
    for (number, words, next) in rows {
        let mut out = [0; 2];
        let m = next.len().min(2);
        let mut row = Row {
            number,
            kind,
            shape: Shape::full(1, words.len())?,
            words,
            next,
            record: Record::unfound(),
            cells: &mut [0; 10],
            work: &mut [0; 120],
        };
        row.run(rt, &mut out[..m])?;
    }
    Ok(())
}

// The rows of the words 1, 1 + x, 1, 1 + x: over three elements two polynomials are tried on what is found.
fn alternating<R: Print>(rt: &R) -> Result<(), Failure> {
    let words = [linear(1, 0), linear(1, 1), linear(1, 0), linear(1, 1)];
    let mut row = Row {
        number: 1,
        kind: Truncated::new(3, 2)?,
        shape: Shape::full(1, 4)?,
        words: &words,
        next: &words[..2],
        record: Record::unfound(),
        cells: &mut [linear(0, 0); 10],
        work: &mut [linear(0, 0); 120],
    };
    row.run(rt, &mut [linear(0, 0); 2])?;
    let finding = row.finding();
    print_tried(
        rt,
        &finding,
        &mut [linear(2, 2), linear(0, 1), linear(1, 0)],
    )?;
    print_tried(rt, &finding, &mut [linear(2, 0), linear(1, 0)])?;
    row.number = 2;
    row.kind = Truncated::new(2, 2)?;
    row.run(rt, &mut [linear(0, 0); 2])?;
    Ok(())
}

// The row of two channels, of bits.
fn two_channels<R: Print>(rt: &R) -> Result<(), Failure> {
    let mut row = Row {
        number: 7,
        kind: Residue::new(2, 1)?,
        shape: Shape::full(2, 3)?,
        words: &[1, 0, 0, 1, 1, 1],
        next: &[],
        record: Record::unfound(),
        cells: &mut [0; 10],
        work: &mut [0; 120],
    };
    row.run(rt, &mut [])?;
    Ok(())
}

fn bit_polynomials<R: Print>(rt: &R) -> Result<(), Failure> {
    let mut row = Row {
        number: 8,
        kind: Bits::new(2, 2)?,
        shape: Shape::full(1, 4)?,
        words: &[1, 3, 1, 3],
        next: &[1, 3],
        record: Record::unfound(),
        cells: &mut [0; 10],
        work: &mut [0; 120],
    };
    row.run(rt, &mut [0; 2])?;
    Ok(())
}

fn run_all<R: Print>(rt: &R) -> Result<(), Failure> {
    modulo_four(rt, Residue::new(2, 2)?)?;
    alternating(rt)?;
    two_channels(rt)?;
    bit_polynomials(rt)
}

fn main(rt: HostRuntime) -> io::Result<()> {
    run_all(&rt).or_else(|failure| failure.tell(&rt))
}
