// The calls of a queue on a shelf.
ghost use Rattle.std.specs.Prelude.{◌≡◌, ℕ, ◌<◌, IfOk, IfSome, MatchOption, None, Some};
ghost use Rattle.refusal.specs.First.{told};
ghost use Rattle.queue.specs.Meaning.{Nobody, Lowest};
ghost use Rattle.queue.specs.Refusals.{station_refusal};
ghost use Rattle.shelf.specs.Shelved.{shelf_meaning, shelf_rank};
ghost use Rattle.std.proofs.Common.{rules};

use super::state::Shelf;
use queue::Queue;
use refusal::Refusal;

impl Queue for Shelf {
    ghost meaning = { shelf_meaning };

    ghost sound = { Prim.search rules };

    fn new() -> Shelf {
        Shelf {
            ranks: [None; 256],
            stations: 1,
            taken: 0,
        }
    }

    fn reset(&mut self, stations: u16) -> Result<(), Refusal> {
        if !(1..=256).contains(&stations) {
            return Err(Refusal::StationCount);
        }
        // the places that count; by a loop, since the check does not cover lending `[..n]` of this field to `fill`
        for place in 0..usize::from(stations) {
            self.ranks[place] = None;
        }
        self.stations = stations;
        self.taken = 0;
        Ok(())
    }

    fn put(&mut self, station: u16, rank: u64) -> Result<(), Refusal> {
        let place = self.place(station)?;
        let waiting = &mut self.ranks[place];
        *waiting = Some(waiting.map_or(rank, |before| before.min(rank)));
        Ok(())
    }

    fn take(&mut self) -> Option<u16> {
        let station = self.lowest()?.station;
        self.ranks[usize::from(station)] = None;
        self.taken = self.taken.saturating_add(1);
        Some(station)
    }

    fn waits(&self, station: u16) -> Result<bool, Refusal> {
        let place = self.place(station)?;
        // a `match`, which is compiled to fewer instructions than `is_some`
        match self.ranks[place] {
            Some(_) => Ok(true),
            None => Ok(false),
        }
    }

    fn taken(&self) -> u16 {
        self.taken
    }
}

impl Shelf {
    // The place of a station's rank, or the refusal of a number that is none.
    fn place(&self, station: u16) -> Result<usize, Refusal>
        ensures refused { told result ≡ station_refusal (shelf_meaning self.now) station }
        ensures value { IfOk result (λ p. (p ≡ station) × (p < self.now.stations)) }
    {
        if station >= self.stations {
            return Err(Refusal::NoStation);
        }
        Ok(usize::from(station))
    }

    // A waiter of the lowest rank, if anybody waits. A `for` from the first waiter on: it takes half as long as a chain that ends in `min_by_key`.
    fn lowest(&self) -> Option<Waiter>
        ensures { MatchOption result (Nobody (shelf_meaning self.now)) (λ w. Lowest (shelf_meaning self.now) w.station) }
    {
        let mut best = self.first()?;
        for station in best.station..self.stations {
            if let Some(rank) = self.ranks[usize::from(station)] {
                if rank < best.rank {
                    best = Waiter { station, rank };
                }
            }
        }
        Some(best)
    }

    // The first station that waits, if anybody does.
    fn first(&self) -> Option<Waiter>
        ensures waits { MatchOption result (Nobody (shelf_meaning self.now)) (λ w. shelf_rank self.now w.station ≡ Some w.rank) }
        ensures first { IfSome result (λ w. (t : ℕ) → t < w.station → shelf_rank self.now t ≡ None) }
    {
        for station in 0..self.stations {
            if let Some(rank) = self.ranks[usize::from(station)] {
                return Some(Waiter { station, rank });
            }
        }
        None
    }
}

// A station, and the rank at which it waits.
#[derive(Clone, Copy)]
struct Waiter {
    station: u16,
    rank: u64,
}
