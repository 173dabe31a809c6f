// One job at the bench, from beginning to end, as a technician would read it.
#![tactic(auto)]

mod job;
mod patterns;

use bits::Bits;
use cancelling::{cancelling_sum, cancels, normalize};
use job::{Bench, Sheet};
use patterns::Patterns;
use recurrence::{Record, Shape};
use residue::Residue;
use ring::{Kind, Refusal, is_unit};
use std::fmt::Display;
use std::io;
use truncated::{Polynomial, Truncated};
use vectors::{Failure, Written};

// A list of elements on one line.
pub fn show<E: Display, R: Print>(rt: &R, label: &str, xs: &[E]) -> io::Result<()> {
    rt.print(label)?;
    for x in xs {
        print!(rt; " {x}")?;
    }
    rt.println("")
}

pub fn refused<R: Print>(rt: &R, refusal: Refusal) -> io::Result<()> {
    println!(rt; "  refused: number {refusal}")
}

// One board: its arithmetic, and the words captured.
#[derive(Drop)]
struct Board<'b, R, K: Kind> {
    rt: &'b R,
    kind: K,
    shape: Shape,
    words: &'b [K::Elem],
}

impl<'b, R: Print, K: Written> Board<'b, R, K> {
    fn new(rt: &'b R, kind: K, words: &'b [K::Elem]) -> Result<Board<'b, R, K>, Refusal> {
        let shape = Shape::full(1, words.len())?;
        Ok(Board {
            rt,
            kind,
            shape,
            words,
        })
    }

    // The sum at each place where all the words that it reads are held, and then the verdict.
    fn try_taps(&self, taps: &[K::Elem]) -> io::Result<()> {
        for k in 0..self.shape.count.words {
            if let Ok(sum) = cancelling_sum(&self.kind, &self.shape, self.words, taps, k, 0) {
                println!(self.rt; "  sum at word {k}: {sum}")?;
            }
        }
        match cancels(&self.kind, &self.shape, self.words, taps) {
            Ok(true) => self.rt.println("  verdict: the taps cancel the capture"),
            Ok(false) => self
                .rt
                .println("  verdict: the taps do not cancel the capture"),
            Err(refusal) => refused(self.rt, refusal),
        }
    }

    // The leading tap is a power of the step times a unit: times the unit's inverse, the power alone is left.
    fn make_normal(&self, taps: &mut [K::Elem]) -> io::Result<()> {
        if let Some(last) = taps.last().copied() {
            let unit = if is_unit(&self.kind, last) {
                "a unit"
            } else {
                "no unit"
            };
            println!(self.rt; "  leading tap {last} is {unit}")?;
        }
        match normalize(&self.kind, taps) {
            Ok(valuation) => {
                println!(self.rt; "  it is the step to the power {valuation}, times a unit")?;
                show(self.rt, "  taps times the unit's inverse:", taps)
            }
            Err(refusal) => refused(self.rt, refusal),
        }
    }

    // The taps of its data sheet, lowest first, are tried, made normal and tried again.
    fn look_at(&self, taps: &mut [K::Elem]) -> io::Result<()> {
        println!(self.rt; "  depth {}, step {}", self.kind.depth(), self.kind.step())?;
        show(self.rt, "  captured:", self.words)?;
        show(self.rt, "  taps of the data sheet, lowest first:", taps)?;
        self.try_taps(taps)?;
        self.make_normal(taps)?;
        self.try_taps(taps)
    }
}

fn numbers<R: Print>(rt: &R) -> Result<(), Failure> {
    rt.println("Board 1: a counter modulo 3^2 = 9")?;
    let board = Board::new(rt, Residue::new(3, 2)?, &[1, 2, 5, 0, 8, 1])?;
    board.look_at(&mut [4, 2, 2])?;
    Ok(())
}

// Board 1's register, every second word of it, and it summed with another that is scaled.
fn generators<R: Print>(rt: &R) -> Result<(), Failure> {
    rt.println("Its pattern generator, built from the taps, and what can be built on it")?;
    let mut patterns = Patterns {
        kind: Residue::new(3, 2)?,
        taps: &[2, 1, 1],
        stages: &mut [1, 2],
        others: &mut [0, 1],
        by: 5,
        buffer: &mut [0; 6],
    };
    patterns.build(rt)
}

fn planes<R: Print>(rt: &R) -> Result<(), Failure> {
    rt.println("Board 2: four bit planes, each feeding the next")?;
    let board = Board::new(rt, Bits::new(2, 4)?, &[1, 3, 5, 15])?;
    board.look_at(&mut [3, 1])?;
    Ok(())
}

// c + b x
fn linear(c: u8, b: u8) -> Polynomial {
    Polynomial {
        coefficients: [c, b, 0, 0, 0, 0, 0, 0],
    }
}

fn polynomials<R: Print>(rt: &R) -> Result<(), Failure> {
    rt.println("Board 3: polynomials in x modulo 3, cut at x^2")?;
    let words = [linear(1, 0), linear(1, 1), linear(1, 0), linear(1, 1)];
    let kind = Truncated::new(3, 2)?;
    let board = Board::new(rt, kind, &words)?;
    board.look_at(&mut [linear(1, 1), linear(0, 2), linear(2, 0)])?;
    rt.println("Its register, from the data sheet to the words that come next")?;
    register(rt, kind)
}

// The board's register is built, captured and found.
fn register<R: Print>(rt: &R, kind: Truncated) -> Result<(), Failure> {
    let sheet = Sheet {
        taps: &[linear(2, 2), linear(0, 1), linear(1, 0)],
        other: &[linear(2, 0), linear(1, 0)],
        word: &[linear(2, 2)],
        foreign: &[linear(3, 0)],
    };
    let mut bench = Bench {
        kind,
        words: &mut [linear(0, 0); 8],
        finding: &mut [linear(0, 0); 32],
        work: &mut [linear(0, 0); 256],
        buffer: &mut [linear(0, 0); 4],
        record: Record::unfound(),
    };
    bench.follow(rt, &sheet, &mut [linear(1, 0), linear(1, 1)])
}

fn mistake<R: Print>(rt: &R) -> io::Result<()> {
    rt.println("A mistake: numbers modulo 4^2, but 4 is no prime")?;
    match Residue::new(4, 2) {
        Ok(_) => rt.println("  accepted"),
        Err(refusal) => refused(rt, refusal),
    }
}

fn whole_job<R: Print>(rt: &R) -> Result<(), Failure> {
    numbers(rt)?;
    generators(rt)?;
    planes(rt)?;
    polynomials(rt)?;
    mistake(rt)?;
    Ok(())
}

fn main(rt: HostRuntime) -> io::Result<()> {
    whole_job(&rt).or_else(|failure| failure.tell(&rt))
}
