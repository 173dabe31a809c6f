// Reads sources from standard input, one a line, makes each, and prints what its checks answer and its first words.
#![tactic(auto)]

use generators::Generator;
use lines::Fields;
use ring::{Kind, Refusal};
use sources::Source;
use sources::adapters::{Scaling, Stride, Sum, check_scaling, check_stride, check_sum};
use std::io;
use vectors::{Element, Failure, Program, Written, run, size};

const WORDS: usize = 64;

// Where sources are stacked, by this stride and factor, and what the checks answer is printed.
#[derive(Drop)]
struct Stacking<'r, R, K: Kind> {
    rt: &'r R,
    stride: usize,
    factor: K::Elem,
}

impl<R: Print, K: Written> Stacking<'_, R, K> {
    fn print_check(&self, answer: Result<(), Refusal>) -> io::Result<()> {
        match answer {
            Ok(()) => self.rt.print("0 "),
            Err(refusal) => print!(self.rt; "{refusal} "),
        }
    }

    fn strided<S: Source<K> + Drop>(&self, source: S) -> io::Result<Stride<S>> {
        self.print_check(check_stride(self.stride))?;
        Ok(Stride::new::<K>(source, self.stride))
    }

    fn scaled<S: Source<K> + Drop>(&self, source: S) -> io::Result<Scaling<S, K::Elem>> {
        self.print_check(check_scaling(&source, self.factor))?;
        Ok(Scaling::new::<K>(source, self.factor))
    }

    fn summed<A: Source<K> + Drop, B: Source<K> + Drop>(
        &self,
        a: A,
        b: B,
    ) -> io::Result<Sum<A, B>> {
        self.print_check(check_sum::<K, A, B>(&a, &b))?;
        Ok(Sum::new::<K>(a, b))
    }

    fn print_words<S: Source<K> + Drop>(&self, mut source: S) -> io::Result<()> {
        self.rt.print(source.next())?;
        for _ in 1..WORDS {
            print!(self.rt; " {}", source.next())?;
        }
        self.rt.println("")
    }

    // Stacks the two sources as the word says, and prints the first words of the whole.
    fn print_stacked<A: Source<K> + Drop, B: Source<K> + Drop>(
        &self,
        word: &str,
        a: A,
        b: B,
    ) -> Result<(), Failure> {
        match word {
            "plain" => self.print_words(a)?,
            "stride" => self.print_words(self.strided(a)?)?,
            "scale" => self.print_words(self.scaled(a)?)?,
            "sum" => self.print_words(self.summed(a, b)?)?,
            "stride-sum" => {
                let both = self.summed(self.scaled(a)?, b)?;
                self.print_words(self.strided(both)?)?
            }
            "scale-stride" => {
                let every = self.strided(self.summed(a, b)?)?;
                self.print_words(self.scaled(every)?)?
            }
            "sum-both" => self.print_words(self.summed(self.strided(a)?, self.scaled(b)?)?)?,
            "stride-stride" => {
                let scaled = self.scaled(self.strided(a)?)?;
                self.print_words(self.strided(scaled)?)?
            }
            _ => return Err(Failure::Unreadable),
        }
        Ok(())
    }
}

#[derive(Drop)]
struct Sources;

impl Program for Sources {
    fn carry_out<K: Written, R: Print + AllocGlobal>(
        rt: &R,
        fields: &mut Fields<'_>,
    ) -> Result<(), Failure> {
        let mut a = Generator::<K>::read(rt.alloc(), fields)?;
        let mut b = Generator::<K>::read(rt.alloc(), fields)?;
        let word = fields.word();
        let stacking = Stacking::<R, K> {
            rt,
            stride: size(fields)?,
            factor: K::Elem::read(fields)?,
        };
        stacking.print_check(a.check())?;
        stacking.print_check(b.check())?;
        stacking.print_stacked(word, a.source(), b.source())
    }
}

fn main(rt: HostRuntime) -> io::Result<()> {
    run::<Sources>(&rt)
}
