// The table of a finding, changed place by place.
ghost use Rattle.std.specs.Prelude.{◌≡◌, ◌<◌, replicate, set};
ghost use Rattle.recurrence.specs.Findings.{blank};

use crate::shape::{Level, Record};

impl Record {
    // A table with no level found.
    pub fn unfound() -> Record
        ensures { result.levels ≡ replicate 31 blank }
    {
        Record {
            levels: [Level {
                length: 0,
                found: false,
            }; 31],
        }
    }

    // One place is changed; the others are as they were. For the crates above, whose levels lie below the depth.
    pub fn put(&mut self, i: usize, level: Level)
        requires { i < 31 }
        ensures { self.new.levels ≡ set self.old.levels i level }
    {
        self.levels[i] = level;
    }
}
