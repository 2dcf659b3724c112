// The numbers that a link's cost may have in a file.
ghost use Rattle.std.specs.Prelude.{◌≡◌};
ghost use Rattle.filekind.specs.Outside.{outside};

// A range of numbers, both ends included.
#[derive(Clone, Copy)]
pub struct LinkRange {
    pub low: u64,
    pub high: u64,
}

impl LinkRange {
    // Whether a number is outside the range.
    pub fn excludes(self, number: u64) -> bool
        ensures value { result ≡ outside self.low self.high number }
    {
        !(self.low..=self.high).contains(&number)
    }
}
