// Pattern generators: a register, and what is built on any source.
use crate::show;
use registers::Register;
use ring::Kind;
use sources::adapters::{Scaling, Stride, Sum};
use sources::{Source, draw};
use vectors::{Failure, Written};

// A register's taps, its stages, those of a second register, the factor of that one, and a buffer for words.
// The stages are lent again and again, so that each source goes on where the one before it stopped.
#[derive(Drop)]
pub struct Patterns<'t, 's, 'o, 'b, K: Kind> {
    pub kind: K,
    pub taps: &'t [K::Elem],
    pub stages: &'s mut [K::Elem],
    pub others: &'o mut [K::Elem],
    pub by: K::Elem,
    pub buffer: &'b mut [K::Elem],
}

// As many words of a source as the buffer holds.
fn words_of<K: Written, S: Source<K>, R: Print>(
    rt: &R,
    label: &str,
    source: &mut S,
    buffer: &mut [K::Elem],
) -> Result<(), Failure> {
    let count = buffer.len();
    draw(source, buffer, 0, count)?;
    show(rt, label, buffer)?;
    Ok(())
}

impl<'t, 's, 'o, 'b, K: Written> Patterns<'t, 's, 'o, 'b, K> {
    fn plain<R: Print>(&mut self, rt: &R) -> Result<(), Failure> {
        let mut register = Register::new(self.kind, self.taps, self.stages);
        words_of(rt, "  the register:", &mut register, self.buffer)
    }

    fn strided<R: Print>(&mut self, rt: &R) -> Result<(), Failure> {
        let register = Register::new(self.kind, self.taps, self.stages);
        words_of(
            rt,
            "  every second word of it from here on:",
            &mut Stride::new(register, 2),
            self.buffer,
        )
    }

    fn summed<R: Print>(&mut self, rt: &R) -> Result<(), Failure> {
        let register = Register::new(self.kind, self.taps, self.stages);
        let other = Register::new(self.kind, self.taps, self.others);
        words_of(
            rt,
            "  it goes on, and a second register times a factor is added:",
            &mut Sum::new(register, Scaling::new(other, self.by)),
            self.buffer,
        )
    }

    pub fn build<R: Print>(&mut self, rt: &R) -> Result<(), Failure> {
        self.plain(rt)?;
        self.strided(rt)?;
        self.summed(rt)
    }
}
