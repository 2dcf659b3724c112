// The calls of a queue on a heap.
ghost use Rattle.std.specs.Prelude.{◌≡◌, IfOk};
ghost use Rattle.refusal.specs.First.{told};
ghost use Rattle.queue.specs.Refusals.{station_refusal};
ghost use Rattle.heap.specs.Heaped.{heap_meaning};
ghost use Rattle.std.proofs.Common.{rules};

use super::state::Heap;
use super::tree::Tree;
use queue::Queue;
use refusal::Refusal;

impl Queue for Heap {
    ghost meaning = { heap_meaning };

    ghost sound = { Prim.search rules };

    fn new() -> Heap {
        Heap {
            tree: Tree::new(),
            stations: 1,
            taken: 0,
        }
    }

    fn reset(&mut self, stations: u16) -> Result<(), Refusal> {
        if !(1..=256).contains(&stations) {
            return Err(Refusal::StationCount);
        }
        self.tree.len = 0;
        self.stations = stations;
        self.taken = 0;
        Ok(())
    }

    // in line, since each offer that is accepted puts a station
    #[inline(always)]
    fn put(&mut self, station: u16, rank: u64) -> Result<(), Refusal> {
        let station = self.station(station)?;
        self.tree.put(station, rank);
        Ok(())
    }

    fn take(&mut self) -> Option<u16> {
        let station = self.tree.pop()?;
        self.taken = self.taken.saturating_add(1);
        Some(u16::from(station))
    }

    fn waits(&self, station: u16) -> Result<bool, Refusal> {
        let station = self.station(station)?;
        Ok(self.tree.place(station).is_some())
    }

    fn taken(&self) -> u16 {
        self.taken
    }
}

impl Heap {
    // The number of a station as the tree has it, or the refusal of a number that is none.
    fn station(&self, station: u16) -> Result<u8, Refusal>
        ensures refused { told result ≡ station_refusal (heap_meaning self.now) station }
        ensures value { IfOk result (λ s. s ≡ station) }
    {
        if station >= self.stations {
            return Err(Refusal::NoStation);
        }
        Ok(station as u8)
    }
}
