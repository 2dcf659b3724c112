// Worked rows as numbers, in lists of the caller's.
ghost use Rattle.std.specs.Prelude.{◌≡◌, ◌+◌, ◌*◌, ◌<◌, ◌≤◌, ◌++◌, length, drop};
ghost use Rattle.tables.specs.Copied.{befores, numbers, CopyEffect};
ghost use Rattle.tables.specs.View.{ledger_of, row_of, view_of};

use super::state::{Tables, at};
use cost::{Cost, Link};
use refusal::Refusal;

impl<'a, K: Cost> Tables<'a, K> {
    // The laid links.
    pub(crate) fn laid(&self) -> &[Link<K>]
        ensures value { result.now ≡ (ledger_of self.now).links }
    {
        &self.list[..self.count as usize]
    }

    // Copies a worked row to the start of two lists: costs by their ranks, and predecessors. Places after them stay.
    pub(crate) fn copy_worked(
        &self,
        source: u16,
        costs: &mut [u64],
        predecessors: &mut [u16],
    ) -> Result<(), Refusal>
        ensures effect { CopyEffect K.Cost.kind (view_of K.Cost.kind self.now) source costs.old costs.new predecessors.old predecessors.new result }
    {
        if source >= self.stations {
            return Err(Refusal::NoStation);
        }
        if !self.is_worked(source) {
            return Err(Refusal::Unworked);
        }
        let stations = self.stations as usize;
        if costs.len() < stations || predecessors.len() < stations {
            return Err(Refusal::ShortBuffer);
        }
        self.copy_costs(source, costs);
        self.copy_predecessors(source, predecessors);
        Ok(())
    }

    // Copies the costs of a row.
    #[tactic(auto, using(crate::proofs::CopiedRows::copied_more))]
    fn copy_costs(&self, source: u16, costs: &mut [u64])
        requires source { source < self.now.stations }
        requires room { self.now.stations ≤ length costs.old }
        ensures after { costs.new ≡ numbers K.Cost.kind self.now.stations (row_of K.Cost.kind self.now source) ++ drop self.now.stations costs.old }
    {
        let stations = self.stations as usize;
        let from = source as usize * stations;
        for (station, cost) in costs[..stations].iter_mut().enumerate() {
            *cost = at(self.costs, from + station).rank();
        }
    }

    // Copies the predecessors of a row.
    #[tactic(auto, using(crate::proofs::CopiedRows::copied_more))]
    fn copy_predecessors(&self, source: u16, predecessors: &mut [u16])
        requires source { source < self.now.stations }
        requires room { self.now.stations ≤ length predecessors.old }
        ensures after { predecessors.new ≡ befores self.now.stations (row_of K.Cost.kind self.now source) ++ drop self.now.stations predecessors.old }
    {
        let stations = self.stations as usize;
        let from = source as usize * stations;
        for (station, predecessor) in predecessors[..stations].iter_mut().enumerate() {
            *predecessor = at(self.predecessors, from + station);
        }
    }
}
