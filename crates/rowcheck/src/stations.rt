// Stations, tested whatever links there are.
ghost use Rattle.std.specs.Prelude.{◌≡◌};
ghost use Rattle.rowcheck.specs.Parts.{network_of, row_of};
ghost use Rattle.rowcheck.specs.Stations.{Tested, own_cause};

use super::supplied::Supplied;
use cost::Cost;
use refusal::Failing;

impl<'a, K: Cost> Supplied<'a, K> {
    // Tests each station whatever links there are.
    pub(crate) fn test_stations(&self) -> Result<(), Failing>
        ensures value { Tested self.now.stations (own_cause K.Cost.kind (network_of self.now) self.now.source (row_of K.Cost.kind self.now)) result }
    {
        for station in 0..self.stations {
            if let Some(cause) = self.own_cause(station) {
                return Err(Failing { station, cause });
            }
        }
        Ok(())
    }

    // The first cause by which a station fails whatever links there are.
    fn own_cause(&self, station: u16) -> Option<u8>
        ensures value { result ≡ own_cause K.Cost.kind (network_of self.now) self.now.source (row_of K.Cost.kind self.now) station }
    {
        let rank = self.cost(station).rank();
        let predecessor = self.predecessor(station);
        if station == self.source {
            if rank != K::zero().rank() || predecessor.is_some() {
                return Some(1);
            }
        } else if (rank == u64::MAX) == predecessor.is_some() {
            return Some(2);
        }
        match predecessor {
            Some(p) if p >= self.stations => Some(3),
            _ => None,
        }
    }
}
