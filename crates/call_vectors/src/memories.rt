// The memories that are handed in at each call, and what is printed of them.
use lines::Fields;
use recurrence::{Level, Record};
use ring::Kind;
use std::alloc::{AllocError, Global};
use std::io;
use vectors::{Element, Written};

#[derive(Drop)]
pub struct Memory<K: Kind> {
    pub kind: K,
    pub words: Vec<K::Elem>,
    pub finding: Vec<K::Elem>,
    // how much work memory there is: it is made anew for each call
    pub work: usize,
    pub numbers: Vec<usize>,
    pub record: Record,
    // how many words the capture holds by the calls that were not refused
    pub count: usize,
}

// The next field as a size; none where there is no number.
pub fn size(fields: &mut Fields<'_>) -> usize {
    fields.number().unwrap_or(0) as usize
}

// The first so many, or all.
pub fn front<E>(all: &[E], many: usize) -> &[E] {
    all.get(..many).unwrap_or(all)
}

pub fn front_mut<E>(all: &mut [E], many: usize) -> &mut [E] {
    let end = many.min(all.len());
    &mut all[..end]
}

// The digest of all these, from this one on.
pub fn digest<E: Element>(from: u32, elements: &[E]) -> u32 {
    elements.iter().fold(from, |d, a| a.digest(d))
}

impl<K: Written> Memory<K> {
    pub fn new(heap: Global, kind: K, fields: &mut Fields<'_>) -> Result<Memory<K>, AllocError> {
        Ok(Memory {
            kind,
            words: vec![in heap; kind.one(); size(fields)]?,
            finding: vec![in heap; kind.one(); size(fields)]?,
            work: size(fields),
            numbers: vec![in heap; 9; size(fields)]?,
            record: Record::unfound(),
            count: 0,
        })
    }

    // The test itself puts a level into the record.
    pub fn put_level(&mut self, place: usize, level: Level) {
        if let Some(cell) = self.record.levels.get_mut(place) {
            *cell = level;
        }
    }

    pub fn print_words<R: Print>(&self, rt: &R) -> io::Result<()> {
        print!(rt; " words {}", digest(0, self.words.as_slice()))
    }

    // The record, level by level.
    pub fn print_record<R: Print>(&self, rt: &R) -> io::Result<()> {
        let total = self.record.levels.iter().fold(0u32, |d, level| {
            let length = u32::try_from(level.length).unwrap_or(u32::MAX);
            u32::from(level.found).digest(length.digest(d))
        });
        print!(rt; " record {total}")
    }

    // All of the finding memory but the lower coefficients of each row.
    pub fn print_leading<R: Print>(&self, rt: &R) -> io::Result<()> {
        let width = self.count.saturating_add(1);
        let mut rest = self.finding.as_slice();
        let mut total = 0;
        for level in self.record.levels.iter().take(self.kind.depth()) {
            let (row, after) = rest.split_at(width.min(rest.len()));
            total = digest(total, row.get(level.length..).unwrap_or(&[]));
            rest = after;
        }
        print!(rt; " finding {}", digest(total, rest))
    }
}

// The test itself puts an element into a memory: what is printed of it.
pub fn put<E: Element>(elements: &mut [E], place: usize, a: E) -> &'static str {
    match elements.get_mut(place) {
        Some(cell) => {
            *cell = a;
            "put"
        }
        None => "unreadable",
    }
}
