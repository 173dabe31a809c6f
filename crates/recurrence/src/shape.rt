// What a capture and a finding are beside their memory: plain records that are copied.
ghost use Rattle.std.specs.Prelude.{◌≡◌, ◌<◌, ◌≤◌, ◌⊎◌, [], ◌∷◌};
ghost use Rattle.ring.specs.Refusals.{Call};

use ring::Refusal;

// How many words are held.
#[derive(Clone, Copy)]
pub struct Count {
    pub words: usize,
}

// Channels, capacity and number of words of a capture. A shape that exists is a good one.
#[derive(Clone, Copy)]
pub struct Shape {
    pub channels: usize,
    pub capacity: usize,
    pub count: Count,
    ghost ok: { (count.words ≤ capacity) × (capacity ≤ 128) × (1 ≤ channels) × (channels ≤ 4) },
}

impl Shape {
    // The shape of a capture that holds as many words as it may come to hold.
    pub fn full(channels: usize, words: usize) -> Result<Shape, Refusal>
        ensures { Call (((channels < 1) ⊎ (4 < channels), Refusal.Channels) ∷ (128 < words, Refusal.Full) ∷ []) result
            (λ s. (s.channels ≡ channels) × (s.capacity ≡ words) × (s.count.words ≡ words)) (Unit {0}) }
    {
        if !(1..=4).contains(&channels) {
            return Err(Refusal::Channels);
        }
        if words > 128 {
            return Err(Refusal::Full);
        }
        Ok(Shape {
            channels,
            capacity: words,
            count: Count { words },
        })
    }
}

// One level of a finding: its length, and whether it is found.
#[derive(Clone, Copy)]
pub struct Level {
    pub length: usize,
    pub found: bool,
}

// The table of a finding, a place for each level that a kind may have.
#[derive(Clone, Copy)]
pub struct Record {
    pub levels: [Level; 31],
}
