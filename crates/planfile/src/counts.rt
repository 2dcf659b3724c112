// The counts of a plan file.
ghost use Rattle.std.specs.Prelude.{Some};
ghost use Rattle.planfile.specs.Text.{counts_text};

use std::fmt;

// The numbers of stations and of links that a plan file tells.
#[derive(Clone, Copy, PartialEq, Eq, Debug)]
pub struct Counts {
    pub stations: u16,
    pub links: u16,
}

// As they stand in a line: stations and links, divided by a blank.
impl fmt::Display for Counts {
    ghost output = { λ c. Some (counts_text c) };

    fn fmt<W: fmt::Write>(&self, f: &mut fmt::Formatter<W>) -> fmt::Result {
        let Counts { stations, links } = *self;
        write!(f, "{stations} {links}")
    }
}
