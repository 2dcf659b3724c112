// A supplier's row, with what it is tested against.
ghost use Rattle.std.specs.Prelude.{◌≡◌, ◌≤◌};
ghost use Rattle.ledger.specs.View.{given};

use cost::{Cost, Link};

// The row for a source, and the stations and links.
#[derive(Drop)]
pub(crate) struct Supplied<'a, K> {
    pub(crate) stations: u16,
    pub(crate) links: &'a [Link<K>],
    pub(crate) source: u16,
    pub(crate) costs: &'a [K],
    pub(crate) predecessors: &'a [u16],
    ghost few: { stations ≤ 256 },
}

impl<'a, K: Cost> Supplied<'a, K> {
    // The cost of a station; past the end of the row, FAR.
    pub(crate) fn cost(&self, station: u16) -> K
        ensures value { result ≡ (given K.Cost.kind self.now.costs.now self.now.predecessors.now).costs station }
    {
        self.costs
            .get(station as usize)
            .copied()
            .unwrap_or(K::far())
    }

    // The predecessor of a station, of which 65,535 is none; past the end of the row, none.
    pub(crate) fn predecessor(&self, station: u16) -> Option<u16>
        ensures value { result ≡ (given K.Cost.kind self.now.costs.now self.now.predecessors.now).predecessors station }
    {
        self.predecessors
            .get(station as usize)
            .copied()
            .filter(|predecessor| *predecessor != u16::MAX)
    }
}
