// The test of a supplier's row against laid links: each station, each link, and each station again.
// Rests on the theory of routes and on the ledger.
// Plans test rows with it.
#![tactic(auto)]

ghost use Rattle.std.specs.Prelude.{◌≡◌, ◌↔◌, None, Some, IfSome, MatchResult};
ghost use Rattle.refusal.specs.First.{told};
ghost use Rattle.ledger.specs.View.{given};
ghost use Rattle.routes.specs.Fails.{NoneFails};
ghost use Rattle.ledger.specs.CheckAnswer.{Named};
ghost use Rattle.rowcheck.specs.Answer.{row_refusal, Names};
ghost use Rattle.rowcheck.specs.Parts.{network_of, row_of};

mod links;
mod stations;
mod supplied;

use cost::{Cost, Link};
use refusal::{Failing, Refusal};
use supplied::Supplied;

// Tests a supplier's row for a source against links between so many stations, of which a plan has 256 at most; refused with a station
// that fails and a cause that holds there.
pub fn test_row<K: Cost>(
    stations: u16,
    links: &[Link<K>],
    source: u16,
    costs: &[K],
    predecessors: &[u16],
) -> Result<(), Refusal>
    ensures refused { IfSome (row_refusal stations source costs.now predecessors.now) (λ c. told result ≡ Some c) }
    ensures accepted { row_refusal stations source costs.now predecessors.now ≡ None → (told result ≡ None) ↔ NoneFails K.Cost.kind (record { stations = stations; links = links.now }) source (given K.Cost.kind costs.now predecessors.now) }
    ensures named { row_refusal stations source costs.now predecessors.now ≡ None → Names K.Cost.kind (record { stations = stations; links = links.now }) source (given K.Cost.kind costs.now predecessors.now) result }
{
    if stations > 256 {
        return Err(Refusal::StationCount);
    }
    if source >= stations {
        return Err(Refusal::NoStation);
    }
    if costs.len() != stations as usize || predecessors.len() != stations as usize {
        return Err(Refusal::RowLength);
    }
    let row = Supplied {
        stations,
        links,
        source,
        costs,
        predecessors,
    };
    find_failing(&row).map_err(Refusal::Row)
}

// Passes a row of which no station fails; else names a station that does, and a cause.
fn find_failing<K: Cost>(row: &Supplied<K>) -> Result<(), Failing>
    ensures value { MatchResult result (λ _. NoneFails K.Cost.kind (network_of row.now) row.now.source (row_of K.Cost.kind row.now)) (Named K.Cost.kind (network_of row.now) row.now.source (row_of K.Cost.kind row.now)) }
{
    row.test_stations()?;
    let found = row.test_links()?;
    row.test_found(&found)
}
