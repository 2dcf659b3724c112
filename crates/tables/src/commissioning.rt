// Tables that are made in lent memory, and commissioned.
ghost use Rattle.std.specs.Prelude.{◌≡◌, ℕ, [], ◌*◌, ◌<◌, ◌≤◌, false, length, replicate, slice_index_or, take, OnOk, OnErr};
ghost use Rattle.cost.specs.declared.link.Link.{Link as LinkOf};
ghost use Rattle.refusal.specs.First.{told};
ghost use Rattle.ledger.specs.Effects.{AllCleared};
ghost use Rattle.tables.specs.Filled.{Filled};
ghost use Rattle.departures.specs.Index.{Indexed};
ghost use Rattle.tables.specs.View.{ledger_of, view_of};
ghost use Rattle.tables.specs.Lent.{Over, SameMemory};
ghost use Rattle.tables.specs.Made.{make_refusal, made, Made};

use super::state::{Tables, fill};
use cost::{Cost, Link};
use departures::Departures;
use refusal::Refusal;

impl<'a, K: Cost> Tables<'a, K> {
    // Tables in memory that the caller lends, as it is: no station yet, no link, and no row worked.
    #[tactic(auto, using(crate::proofs::Unmarked::unmarked_ledger))]
    pub(crate) fn over(
        list: &'a mut [Link<K>],
        costs: &'a mut [K],
        predecessors: &'a mut [u16],
    ) -> Tables<'a, K>
        ensures memory { Over result list.entry costs.entry predecessors.entry }
        ensures stations { result.stations ≡ 0 }
        ensures count { result.count ≡ 0 }
        ensures worked { result.worked ≡ replicate 256 false }
        ensures list { result.list.now ≡ list.old }
        ensures costs { result.costs.now ≡ costs.old }
        ensures predecessors { result.predecessors.now ≡ predecessors.old }
        ensures ledger { ledger_of result ≡ made 0 (length list.old) [] }
    {
        let departures = Departures::of(&list[..0]);
        Tables {
            stations: 0,
            count: 0,
            worked: none_worked(),
            list,
            costs,
            predecessors,
            departures,
        }
    }

    // Commissions a number of stations, with no link and no worked row; the tables have a cell for each two of them.
    #[tactic(auto, using(crate::proofs::Clearing::all_filled))]
    pub(crate) fn make_empty(&mut self, stations: u16) -> Result<(), Refusal>
        ensures refused { told result ≡ make_refusal stations (length self.old.list.now) (length self.old.costs.now) (length self.old.predecessors.now) }
        ensures made { OnOk result (Made K.Cost.kind stations self.old self.new) }
        ensures cleared { OnOk result (AllCleared K.Cost.kind (view_of K.Cost.kind self.new)) }
        ensures kept { OnErr result (self.new ≡ self.old) }
    {
        if !(1..=256).contains(&stations) {
            return Err(Refusal::StationCount);
        }
        let cells = stations as usize * stations as usize;
        let costs = self.costs.len();
        let predecessors = self.predecessors.len();
        let places = self.list.len();
        if !(1..=4096).contains(&places) || costs != cells || predecessors != cells {
            return Err(Refusal::Places);
        }
        self.commission(stations, 0);
        Ok(())
    }

    // Sets up so many stations with the links at the list's start, and clears all their rows; cells past the rows stay.
    pub(crate) fn commission(&mut self, stations: u16, count: u16)
        requires few { stations ≤ 256 }
        requires counted { count ≤ length self.old.list.now }
        requires list_short { length self.old.list.now ≤ 4096 }
        requires costs_fit { stations * stations ≤ length self.old.costs.now }
        requires predecessors_fit { stations * stations ≤ length self.old.predecessors.now }
        requires between { (k : ℕ) (d : LinkOf K) → k < count → ((slice_index_or self.old.list.now k d).from < stations) × ((slice_index_or self.old.list.now k d).to < stations) }
        ensures memory { SameMemory self.old self.new }
        ensures ledger { ledger_of self.new ≡ made stations (length self.old.list.now) (take count self.old.list.now) }
        ensures cleared { AllCleared K.Cost.kind (view_of K.Cost.kind self.new) }
        ensures list { self.new.list.now ≡ self.old.list.now }
        ensures costs { Filled 0 (stations * stations) K.Cost.kind.far self.old.costs.now self.new.costs.now }
        ensures predecessors { Filled 0 (stations * stations) 65535 self.old.predecessors.now self.new.predecessors.now }
    {
        let departures = self.departures_of(count as usize);
        let cells = stations as usize * stations as usize;
        fill(self.costs, 0, cells, K::far());
        fill(self.predecessors, 0, cells, u16::MAX);
        self.worked = none_worked();
        self.stations = stations;
        self.count = count;
        self.departures = departures;
    }

    // The departures of the first links of the list, so many.
    pub(crate) fn departures_of(&self, count: usize) -> Departures
        requires { count ≤ length self.now.list.now }
        ensures { Indexed (take count self.now.list.now) result }
    {
        Departures::of(&self.list[..count])
    }
}

// The marks where no row is worked.
pub(crate) fn none_worked() -> [bool; 256]
    ensures value { result ≡ replicate 256 false }
    ensures off { (a : ℕ) → slice_index_or result a false ≡ false }
{
    [false; 256]
}
