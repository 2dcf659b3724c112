// Links, each of which is tested, and the stations that they lead to from their predecessors.
ghost use Rattle.std.specs.Prelude.{◌≡◌, IfErr, IfOk, OnOk};
ghost use Rattle.ledger.specs.CheckAnswer.{Named};
ghost use Rattle.rowcheck.specs.Links.{Looked, link_answer, marked, unfound};
ghost use Rattle.rowcheck.specs.Parts.{network_of, row_of};
ghost use Rattle.rowcheck.specs.Stations.{Tested};

use super::supplied::Supplied;
use cost::{Cost, Link};
use refusal::Failing;

impl<'a, K: Cost> Supplied<'a, K> {
    // Tests each link, and answers which stations a link leads to from their predecessors.
    #[tactic(auto, using(crate::proofs::Looked::looking))]
    pub(crate) fn test_links(&self) -> Result<[bool; 256], Failing>
        ensures looked { IfOk result (Looked K.Cost.kind (network_of self.now) self.now.source (row_of K.Cost.kind self.now)) }
        ensures named { IfErr result (Named K.Cost.kind (network_of self.now) self.now.source (row_of K.Cost.kind self.now)) }
    {
        let mut found = [false; 256];
        for link in self.links {
            self.test_link(link, &mut found)?;
        }
        Ok(found)
    }

    // Tests a link, and marks the station that it leads to where it does so from the station's predecessor.
    fn test_link(&self, link: &Link<K>, found: &mut [bool; 256]) -> Result<(), Failing>
        ensures value { result ≡ link_answer K.Cost.kind (network_of self.now) self.now.source (row_of K.Cost.kind self.now) link.now }
        ensures after { OnOk result (found.new ≡ marked K.Cost.kind (network_of self.now) self.now.source (row_of K.Cost.kind self.now) link.now found.old) }
    {
        let station = link.to;
        if station >= self.stations {
            return Ok(());
        }
        let over = self.cost(link.from).join(link.cost).rank();
        let rank = self.cost(station).rank();
        if over < rank {
            return Err(Failing { station, cause: 5 });
        }
        if self.predecessor(station).is_some_and(|p| p == link.from) {
            if over != rank {
                return Err(Failing { station, cause: 4 });
            }
            found[station as usize] = true;
        }
        Ok(())
    }

    // Tests that each station with a predecessor was found.
    pub(crate) fn test_found(&self, found: &[bool; 256]) -> Result<(), Failing>
        ensures value { Tested self.now.stations (unfound (row_of K.Cost.kind self.now) found.now) result }
    {
        for station in 0..self.stations {
            if self.predecessor(station).is_some() && !found[station as usize] {
                return Err(Failing { station, cause: 3 });
            }
        }
        Ok(())
    }
}
