// Links.
ghost use Rattle.std.specs.Prelude.{Some};
ghost use Rattle.cost.specs.Text.{link_text};

use super::kind::Cost;
use std::fmt;

// A one-way link from one station to another, at a cost of some kind.
#[derive(Clone, Copy)]
pub struct Link<K> {
    pub from: u16,
    pub to: u16,
    pub cost: K,
}

// As it stands in a line: from, to and the cost's number, divided by blanks.
impl<K: Cost> fmt::Display for Link<K> {
    ghost output = { λ l. Some (link_text K.kind l) };

    fn fmt<W: fmt::Write>(&self, f: &mut fmt::Formatter<W>) -> fmt::Result {
        let Link { from, to, cost } = *self;
        let rank = cost.rank();
        write!(f, "{from} {to} {rank}")
    }
}
