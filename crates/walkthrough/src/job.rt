// A capture from its first word to the words that come next.
use crate::{refused, show};
use capture::{Found, Open};
use recurrence::Record;
use registers::Register;
use ring::Kind;
use sources::Source;
use std::io;
use vectors::{Failure, Written};

// What the data sheet says of a board: its taps, lowest first; another polynomial to try; a word to feed, and one that is foreign.
#[derive(Clone, Copy)]
pub struct Sheet<'s, E> {
    pub taps: &'s [E],
    pub other: &'s [E],
    pub word: &'s [E],
    pub foreign: &'s [E],
}

// The memory that is lent to a capture at the bench, and the record of its finding.
#[derive(Drop)]
pub struct Bench<'w, 'f, 'k, 'b, K: Kind> {
    pub kind: K,
    pub words: &'w mut [K::Elem],
    pub finding: &'f mut [K::Elem],
    pub work: &'k mut [K::Elem],
    pub buffer: &'b mut [K::Elem],
    pub record: Record,
}

impl<'w, 'f, 'k, 'b, K: Written> Bench<'w, 'f, 'k, 'b, K> {
    // The next m words of the board.
    fn draw<S: Source<K>, R: Print>(
        &mut self,
        rt: &R,
        open: &mut Open<K>,
        source: &mut S,
        m: usize,
    ) -> io::Result<()> {
        match open.draw(self.words, source, m) {
            Ok(()) => println!(rt; "  drawn: {m} words"),
            Err(refusal) => refused(rt, refusal),
        }
    }

    // One word by hand.
    fn feed<R: Print>(&mut self, rt: &R, open: &mut Open<K>, word: &[K::Elem]) -> io::Result<()> {
        show(rt, "  fed by hand:", word)?;
        match open.feed(self.words, word) {
            Ok(()) => Ok(()),
            Err(refusal) => refused(rt, refusal),
        }
    }

    // The length of the first 0, 1, .. words.
    fn profile<R: Print>(&mut self, rt: &R, open: &mut Open<K>) -> io::Result<()> {
        let mut numbers = [0usize; 5];
        let words = &mut *self.words;
        let work = &mut *self.work;
        let finding = &mut *self.finding;
        let answer = open.profile(words, &mut numbers, work, finding);
        match answer {
            Ok(()) => show(
                rt,
                "  shortest register of the first 0, 1, .. words:",
                &numbers,
            ),
            Err(refusal) => refused(rt, refusal),
        }
    }

    // What a finding says.
    fn report<R: Print>(&self, rt: &R, found: &Found<K>) -> io::Result<()> {
        let depth = self.kind.depth();
        for (i, level) in self.record.levels.iter().take(depth).enumerate() {
            println!(rt; "  length at level {i}: {}", level.length)?;
        }
        match found.settled(&self.record, self.finding) {
            Ok(true) => rt.println("  settled"),
            Ok(false) => rt.println("  not settled: more words are wanted"),
            Err(refusal) => refused(rt, refusal),
        }
    }

    // How many coefficients a polynomial leaves, which is tried in the buffer.
    fn try_taps<R: Print>(&mut self, rt: &R, found: &Found<K>, taps: &[K::Elem]) -> io::Result<()> {
        show(rt, "  tried, lowest first:", taps)?;
        let finding = &mut *self.finding;
        let buffer = &mut *self.buffer;
        let Some(tried) = buffer.get_mut(..taps.len()) else {
            return rt.println("    it is too long for the buffer");
        };
        tried.copy_from_slice(taps);
        match found.try_on(&self.record, finding, tried) {
            Ok(0) => rt.println("    nothing is left: it cancels the run"),
            Ok(left) => println!(rt;
                "    {left} coefficients are left: it does not cancel the run"
            ),
            Err(refusal) => refused(rt, refusal),
        }
    }

    // As many of the next words as the buffer holds.
    fn run_on<R: Print>(&mut self, rt: &R, found: &Found<K>) -> io::Result<()> {
        let words = &mut *self.words;
        let finding = &mut *self.finding;
        let buffer = &mut *self.buffer;
        match found.run_on(words, &self.record, finding, buffer) {
            Ok(()) => show(rt, "  next words:", buffer),
            Err(refusal) => refused(rt, refusal),
        }
    }

    // Finds, tries the data sheet's taps and another polynomial, tells the next words, and opens the capture again.
    fn look<R: Print>(
        &mut self,
        rt: &R,
        open: Open<K>,
        sheet: &Sheet<'_, K::Elem>,
    ) -> io::Result<Open<K>> {
        let mut record = Record::unfound();
        let words = &mut *self.words;
        let finding = &mut *self.finding;
        let work = &mut *self.work;
        match open.find(words, &mut record, finding, work) {
            Ok(found) => {
                self.record = record;
                self.report(rt, &found)?;
                self.try_taps(rt, &found, sheet.taps)?;
                self.try_taps(rt, &found, sheet.other)?;
                self.run_on(rt, &found)?;
                Ok(found.reopen())
            }
            Err((refusal, open)) => {
                refused(rt, refusal)?;
                Ok(open)
            }
        }
    }

    // One capture: drawn from the board's register, a word fed and taken back, a foreign one refused; found; more words; found again.
    pub fn follow<R: Print>(
        &mut self,
        rt: &R,
        sheet: &Sheet<'_, K::Elem>,
        stages: &mut [K::Elem],
    ) -> Result<(), Failure> {
        let mut register = Register::new(self.kind, sheet.taps, stages);
        let mut open = Open::new(self.kind, 1, self.words)?;
        self.draw(rt, &mut open, &mut register, 4)?;
        self.feed(rt, &mut open, sheet.word)?;
        self.feed(rt, &mut open, sheet.foreign)?;
        take_back(rt, &mut open, 1)?;
        show(rt, "  the words' memory:", self.words)?;
        self.profile(rt, &mut open)?;
        let mut open = self.look(rt, open, sheet)?;
        self.draw(rt, &mut open, &mut register, 2)?;
        let _open = self.look(rt, open, sheet)?;
        Ok(())
    }
}

fn take_back<K: Kind, R: Print>(rt: &R, open: &mut Open<K>, m: usize) -> io::Result<()> {
    match open.take_back(m) {
        Ok(()) => println!(rt; "  taken back: {m}"),
        Err(refusal) => refused(rt, refusal),
    }
}
