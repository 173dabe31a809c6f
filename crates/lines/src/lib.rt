// Lines of text with fields parted by blanks: for the programs that run vectors.
#![tactic(auto)]

ghost use Rattle.std.specs.Prelude.{◌≡◌};
ghost use Rattle.lines.specs.Lines.{Cut, Reads};

// What is left of a line.
#[derive(Drop)]
pub struct Fields<'t> {
    pub rest: &'t str,
}

impl<'t> Fields<'t> {
    pub fn new(line: &'t str) -> Fields<'t>
        ensures { result.rest.now ≡ line.now }
    {
        Fields { rest: line }
    }

    // The next field.
    pub fn word(&mut self) -> &'t str
        ensures { Cut self.old.rest.now result.now self.new.rest.now }
    {
        let (field, rest) = self.rest.split_once(' ').unwrap_or((self.rest, ""));
        self.rest = rest;
        field
    }

    // The next field as a number.
    pub fn number(&mut self) -> Option<u32>
        ensures { Reads self.old.rest.now self.new.rest.now result }
    {
        self.word().parse::<u32>().ok()
    }
}
