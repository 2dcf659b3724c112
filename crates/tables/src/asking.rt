// What a row answers: a cost, or a route.
ghost use Rattle.std.specs.Prelude.{◌≡◌, ◌<◌, ◌≤◌, ◌++◌, length, drop};
ghost use Rattle.ledger.specs.Effects.{CheckEffect, CostEffect, RouteEffect, way};
ghost use Rattle.tables.specs.View.{ledger_of, row_of, view_of};

use super::state::{Tables, at};
use cost::Cost;
use planfile::Counts;
use refusal::Refusal;
use rowcheck::test_row;

impl<'a, K: Cost> Tables<'a, K> {
    // How many stations there are, and laid links.
    pub(crate) fn counted(&self) -> Counts
        ensures stations { result.stations ≡ (ledger_of self.now).stations }
        ensures links { result.links ≡ length (ledger_of self.now).links }
    {
        Counts {
            stations: self.stations,
            links: self.count,
        }
    }

    // The cost that a worked row holds of a station.
    pub(crate) fn cost_at(&self, from: u16, to: u16) -> Result<K, Refusal>
        ensures effect { CostEffect (view_of K.Cost.kind self.now) from to result }
    {
        if from >= self.stations || to >= self.stations {
            return Err(Refusal::NoStation);
        }
        if !self.is_worked(from) {
            return Err(Refusal::Unworked);
        }
        Ok(self.label(from, to))
    }

    // Writes the way back from a station below FAR, by the predecessors of a worked row, at the start of the list, and answers how many stations it has.
    // Places after them stay.
    pub(crate) fn trace_route(&self, from: u16, to: u16, list: &mut [u16]) -> Result<usize, Refusal>
        ensures effect { RouteEffect K.Cost.kind (view_of K.Cost.kind self.now) from to list.old list.new result }
    {
        if self.cost_at(from, to)?.rank() == u64::MAX {
            return Err(Refusal::Far);
        }
        let count = self.count_back(from, to);
        if list.len() < count {
            return Err(Refusal::ShortBuffer);
        }
        self.write_back(from, to, count, list);
        Ok(count)
    }

    // Tests a supplier's row against the laid links.
    pub(crate) fn test_row(
        &self,
        source: u16,
        costs: &[K],
        predecessors: &[u16],
    ) -> Result<(), Refusal>
        ensures effect { CheckEffect K.Cost.kind (ledger_of self.now) source costs.now predecessors.now result }
    {
        let links = &self.list[..self.count as usize];
        test_row(self.stations, links, source, costs, predecessors)
    }

    // The predecessor that a row holds of a station, if any; none of a number that is no station.
    fn predecessor(&self, row: u16, station: u16) -> Option<u16>
        requires row { row < self.now.stations }
        ensures value { result ≡ (row_of K.Cost.kind self.now row).predecessors station }
    {
        if station >= self.stations {
            return None;
        }
        match at(self.predecessors, self.place(row, station)) {
            u16::MAX => None,
            before => Some(before),
        }
    }

    // How many stations there are on the way back.
    fn count_back(&self, row: u16, station: u16) -> usize
        requires row { row < self.now.stations }
        ensures value { result ≡ length (way (view_of K.Cost.kind self.now) row station) }
    {
        let mut at = station;
        let mut count = 1;
        for _ in 0..self.stations {
            let Some(before) = self.predecessor(row, at) else {
                break;
            };
            at = before;
            count += 1;
        }
        count
    }

    // Writes the way back, so many stations, from its end to its start.
    fn write_back(&self, row: u16, station: u16, count: usize, list: &mut [u16])
        requires row { row < self.now.stations }
        requires count { count ≡ length (way (view_of K.Cost.kind self.now) row station) }
        requires room { count ≤ length list.old }
        ensures after { list.new ≡ way (view_of K.Cost.kind self.now) row station ++ drop count list.old }
    {
        let mut at = station;
        for place in (0..count).rev() {
            list[place] = at;
            at = self.predecessor(row, at).unwrap_or(at);
        }
    }
}
