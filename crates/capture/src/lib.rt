// Captures: open and found, the calls on them, and what every list of calls promises.
#![tactic(auto)]

ghost use Rattle.std.specs.Prelude.{◌≡◌, ℕ, ◌+◌, ◌*◌, ◌<◌, ◌≤◌, length, Ok, Err, slice_index};
ghost use Rattle.recurrence.specs.Words.{Length, words as words_of};
ghost use Rattle.ring.specs.Refusals.{Passes};
ghost use Rattle.judging.specs.Calls.{AskedSettled, AskedRunBack};
ghost use Rattle.annihilator.specs.Calls.{seeking};
ghost use Rattle.capture.specs.Calls.{Opened, TookBack, Reopened, Fed, Drew, Profiled};
ghost use Rattle.capture.specs.Main.{Stands, Find, FindKeeps, Try, TryKeeps, RunOn, RunOnKeeps};

use annihilator::find;
use continuation::run_on;
use judging::Finding;
use memory::{all_lawful, put};
use recurrence::{Count, Record, Shape};
use remainder::try_on;
use ring::{Kind, Refusal};
use sources::{Source, draw};

// The most words that a capture may come to hold.
const MOST: usize = 128;

// A capture that takes words. The words lie in memory that is handed in at each call.
#[derive(Drop)]
pub struct Open<K> {
    kind: K,
    shape: Shape,
}

// A capture whose finding stands.
#[derive(Drop)]
pub struct Found<K> {
    kind: K,
    shape: Shape,
}

impl<K: Kind> Open<K> {
    // A capture of n channels with no words, for as many as the memory has room for and at most 128.
    pub fn new(kind: K, n: usize, words: &[K::Elem]) -> Result<Open<K>, Refusal>
        ensures { Opened kind n words.now result }
    {
        if n < 1 || n > 4 {
            return Err(Refusal::Channels);
        }
        let capacity = MOST.min(words.len() / n);
        Ok(Open {
            kind,
            shape: Shape {
                channels: n,
                capacity,
                count: Count { words: 0 },
            },
        })
    }

    // Removes the last m words.
    pub fn take_back(&mut self, m: usize) -> Result<(), Refusal>
        ensures { TookBack self.old m result self.new }
    {
        if m > self.shape.count.words {
            return Err(Refusal::Back);
        }
        self.shape.count.words -= m;
        Ok(())
    }

    // Puts a word behind those held.
    pub fn feed(&mut self, words: &mut [K::Elem], word: &[K::Elem]) -> Result<(), Refusal>
        ensures { Fed K.Kind.ring self.old words.old word.now result self.new words.new }
    {
        let n = self.shape.channels;
        if word.len() != n {
            return Err(Refusal::Channels);
        }
        if words.len() < self.shape.capacity * n {
            return Err(Refusal::Short);
        }
        if self.shape.count.words >= self.shape.capacity {
            return Err(Refusal::Full);
        }
        if !all_lawful(&self.kind, word) {
            return Err(Refusal::Foreign);
        }
        put(words, self.shape.count.words * n, word);
        self.shape.count.words += 1;
        Ok(())
    }

    // Puts the next m elements of a source behind the words held, of one channel.
    pub fn draw<S: Source<K>>(
        &mut self,
        words: &mut [K::Elem],
        source: &mut S,
        m: usize,
    ) -> Result<(), Refusal>
        ensures { Drew K.Kind.ring S.Source.kind_of S.Source.list self.old words.old source.old m result
            self.new words.new source.new }
    {
        if self.shape.channels > 1 {
            return Err(Refusal::Channels);
        }
        if words.len() < self.shape.capacity * self.shape.channels {
            return Err(Refusal::Short);
        }
        if m > self.shape.capacity - self.shape.count.words {
            return Err(Refusal::Full);
        }
        let theirs = (*source).kind();
        if !theirs.same(&self.kind) {
            return Err(Refusal::Foreign);
        }
        draw(source, words, self.shape.count.words, m)?;
        self.shape.count.words += m;
        Ok(())
    }
}

impl<K: Kind> Open<K> {
    // Finds the shortest polynomial of each level that cancels the words held. Refused, the open capture comes back.
    pub fn find(
        self,
        words: &[K::Elem],
        record: &mut Record,
        finding: &mut [K::Elem],
        work: &mut [K::Elem],
    ) -> Result<Found<K>, (Refusal, Open<K>)>
        ensures { Find K.Kind.ring self words.now «record».old.levels finding.old work.old result
            «record».new.levels finding.new work.new }
    {
        promises_stand(&self.kind);
        match find(&self.kind, self.shape, words, record, finding, work) {
            Ok(_) => {
                let Open { kind, shape } = self;
                Ok(Found { kind, shape })
            }
            Err(refusal) => Err((refusal, self)),
        }
    }

    // Writes the length at level 0 of the first j words at place j of the numbers, for every j up to the number of words held.
    pub fn profile(
        &mut self,
        words: &[K::Elem],
        numbers: &mut [usize],
        work: &mut [K::Elem],
        finding: &mut [K::Elem],
    ) -> Result<(), Refusal>
        ensures { Profiled K.Kind.ring self.old words.now numbers.old work.old finding.old result
            self.new numbers.new work.new finding.new }
    {
        let e = self.shape.count.words;
        if numbers.len() < e + 1 {
            return Err(Refusal::Short);
        }
        let shape = self.shape;
        let mut record = Record::unfound();
        find(&self.kind, shape, words, &mut record, finding, work)?;
        numbers[e] = record.levels[0].length;
        lengths(
            &self.kind,
            shape,
            &mut self.shape.count,
            words,
            numbers,
            work,
            finding,
        )
    }
}

// Holds the count of a capture while a part of its words is looked at, and puts it back when it goes.
struct Guard<'a> {
    count: &'a mut Count,
    saved: usize,
}

impl Drop for Guard<'_> {
    fn drop(self)
        ensures { self.exit.0.now.words ≡ self.entry.saved }
    {
        self.count.words = self.saved;
        let Guard { count: _, saved: _ } = self;
    }
}

// The lengths of the first j words, for each j below the number held. Its caller has found that a find of all of them is not refused, so that
// none of these is.
fn lengths<K: Kind>(
    kind: &K,
    shape: Shape,
    count: &mut Count,
    words: &[K::Elem],
    numbers: &mut [usize],
    work: &mut [K::Elem],
    finding: &mut [K::Elem],
) -> Result<(), Refusal>
    requires whole { count.old ≡ shape.count }
    requires room { shape.count.words < length numbers.old }
    requires passes { Passes (seeking (K.Kind.ring kind.now) shape words.now finding.old work.old) }
    ensures done { result ≡ Ok tt }
    ensures restored { count.new.words ≡ shape.count.words }
    ensures there { (j : ℕ) → j < shape.count.words
        → Length (K.Kind.ring kind.now) shape.channels j (words_of (K.Kind.ring kind.now) shape words.now) 0 (slice_index numbers.new j) }
    ensures after { (j : ℕ) → shape.count.words ≤ j → slice_index numbers.new j ≡ slice_index numbers.old j }
{
    let saved = count.words;
    let guard = Guard { count, saved };
    let mut record = Record::unfound();
    for j in 0..saved {
        guard.count.words = j;
        let part = Shape {
            channels: shape.channels,
            capacity: shape.capacity,
            count: *guard.count,
        };
        find(kind, part, words, &mut record, finding, work)?;
        numbers[j] = record.levels[0].length;
    }
    Ok(())
}

impl<K: Kind> Found<K> {
    // Lets the finding go, so that the capture takes words again.
    pub fn reopen(self) -> Open<K>
        ensures { Reopened self result }
    {
        let Found { kind, shape } = self;
        Open { kind, shape }
    }

    // What is handed in as the finding of this capture.
    fn finding<'f>(&self, record: &'f Record, cells: &'f [K::Elem]) -> Finding<'f, K>
        ensures capture { (result.kind ≡ self.now.kind) × (result.shape ≡ self.now.shape) }
        ensures finding { (result.«record».now ≡ «record».now) × (result.cells.now ≡ cells.now) }
    {
        Finding {
            kind: self.kind,
            shape: self.shape,
            record,
            cells,
        }
    }

    // Whether the words held number at least twice the length at level 0.
    pub fn settled(&self, record: &Record, finding: &[K::Elem]) -> Result<bool, Refusal>
        ensures { AskedSettled (K.Kind.ring self.now.kind) self.now.shape «record».now.levels finding.now result }
    {
        self.finding(record, finding).settled()
    }

    // Whether the lowest coefficient of the polynomial of level 0 is not zero.
    pub fn can_be_run_back(&self, record: &Record, finding: &[K::Elem]) -> Result<bool, Refusal>
        ensures { AskedRunBack (K.Kind.ring self.now.kind) self.now.shape «record».now.levels finding.now result }
    {
        self.finding(record, finding).can_be_run_back()
    }

    // Reduces a polynomial in the memory it lies in, and answers how many coefficients are left.
    pub fn try_on(
        &self,
        record: &Record,
        finding: &[K::Elem],
        polynomial: &mut [K::Elem],
    ) -> Result<usize, Refusal>
        ensures { Try K.Kind.ring self.now «record».now.levels finding.now polynomial.old result polynomial.new }
    {
        promises_stand(&self.kind);
        try_on(&self.finding(record, finding), polynomial)
    }

    // Fills the buffer with the run's words from the first that is not held on, each channel by channel.
    pub fn run_on(
        &self,
        words: &[K::Elem],
        record: &Record,
        finding: &[K::Elem],
        buffer: &mut [K::Elem],
    ) -> Result<(), Refusal>
        ensures { RunOn K.Kind.ring self.now words.now «record».now.levels finding.now buffer.old result
            buffer.new }
    {
        promises_stand(&self.kind);
        run_on(&self.finding(record, finding), words, buffer)
    }
}

// Whatever calls led to a found capture, its finding keeps the promises; and so find, try and run on keep theirs.
// It computes nothing: to call it is to have the theorem.
pub fn promises_stand<K: Kind>(kind: &K)
    ensures stands { Stands K.Kind.ring }
    ensures find { FindKeeps K.Kind.ring }
    ensures tried { TryKeeps K.Kind.ring }
    ensures runs { RunOnKeeps K.Kind.ring }
{}
