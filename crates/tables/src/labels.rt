// Labels of a row that is being worked.
ghost use Rattle.std.specs.Prelude.{◌≡◌, ◌+◌, ◌*◌, ◌<◌, ◌||◌, is_some, if◌then◌else◌};
ghost use Rattle.queue.specs.Calls.{after_put};
ghost use Rattle.routes.specs.Offers.{offered};
ghost use Rattle.ledger.specs.View.{cleared};
ghost use Rattle.tables.specs.View.{row_of};
ghost use Rattle.tables.specs.Working.{begun_row, state_of, offer_of, Kept};

use super::state::{Tables, at, fill, set};
use cost::Cost;
use queue::Queue;

// An offer of a better label; the row of the source begins at the place `from`.
#[derive(Clone, Copy)]
pub(crate) struct Offer<K> {
    pub(crate) from: usize,
    pub(crate) station: u16,
    pub(crate) cost: K,
    pub(crate) predecessor: u16,
    pub(crate) first: Option<u16>,
    pub(crate) puts: bool,
}

impl<'a, K: Cost> Tables<'a, K> {
    // The place of a station's cell in a row.
    pub(crate) fn place(&self, row: u16, station: u16) -> usize
        requires row { row < self.now.stations }
        requires station { station < self.now.stations }
        ensures value { result ≡ row * self.now.stations + station }
        ensures fits { result < self.now.stations * self.now.stations }
    {
        row as usize * self.stations as usize + station as usize
    }

    // The same, where it is known at which place the row begins.
    pub(crate) fn place_from(&self, from: usize, row: u16, station: u16) -> usize
        requires from { from ≡ row * self.now.stations }
        requires row { row < self.now.stations }
        requires station { station < self.now.stations }
        ensures value { result ≡ row * self.now.stations + station }
        ensures fits { result < self.now.stations * self.now.stations }
    {
        from + station as usize
    }

    // The cost that a row holds for a station.
    pub(crate) fn label(&self, row: u16, station: u16) -> K
        requires row { row < self.now.stations }
        requires station { station < self.now.stations }
        ensures value { result ≡ (row_of K.Cost.kind self.now row).costs station }
    {
        at(self.costs, self.place(row, station))
    }

    // Clears a row: FAR and no predecessor throughout.
    pub(crate) fn clear_row(&mut self, row: u16)
        requires row { row < self.old.stations }
        ensures cleared { row_of K.Cost.kind self.new row ≡ cleared K.Cost.kind }
        ensures kept { Kept row self.old self.new }
    {
        let from = row as usize * self.stations as usize;
        let to = from + self.stations as usize;
        fill(self.costs, from, to, K::far());
        fill(self.predecessors, from, to, u16::MAX);
    }

    // Begins a row: the source at zero, every other station at FAR.
    pub(crate) fn begin_row(&mut self, source: u16)
        requires source { source < self.old.stations }
        ensures begun { row_of K.Cost.kind self.new source ≡ begun_row K.Cost.kind source }
        ensures kept { Kept source self.old self.new }
    {
        self.clear_row(source);
        let place = self.place(source, source);
        set(self.costs, place, K::zero());
    }

    // Makes an offer to a station: it is accepted where it is below the station's label. Elsewhere that is called relaxation.
    #[tactic(auto, using(crate::proofs::Accepted::accepted_state))]
    pub(crate) fn offer<Q: Queue>(
        &mut self,
        source: u16,
        offer: Offer<K>,
        firsts: &mut [Option<u16>; 256],
        queue: &mut Q,
    )
        requires source { source < self.old.stations }
        requires from { offer.from ≡ source * self.old.stations }
        requires station { offer.station < self.old.stations }
        requires queue { (Q.Queue.meaning queue.old).stations ≡ self.old.stations }
        ensures state { state_of K.Cost.kind self.new source firsts.new (Q.Queue.meaning queue.new) ≡ offered K.Cost.kind (state_of K.Cost.kind self.old source firsts.old (Q.Queue.meaning queue.old)) (offer_of offer) }
        ensures kept { Kept source self.old self.new }
    {
        let place = self.place_from(offer.from, source, offer.station);
        if offer.cost.rank() < self.costs[place].rank() {
            set(self.costs, place, offer.cost);
            set(self.predecessors, place, offer.predecessor);
            firsts[offer.station as usize] = offer.first;
            put_or_lower(queue, offer.station, offer.cost.rank(), offer.puts);
        }
    }
}

// Puts a station at a rank where it is to be put, or lowers it to that rank where it waits. The station is one, so no call is refused.
fn put_or_lower<Q: Queue>(queue: &mut Q, station: u16, rank: u64, puts: bool)
    requires station { station < (Q.Queue.meaning queue.old).stations }
    ensures after { Q.Queue.meaning queue.new ≡ (if puts || is_some ((Q.Queue.meaning queue.old).ranks station) then after_put (Q.Queue.meaning queue.old) station rank else Q.Queue.meaning queue.old) }
{
    if puts || queue.waits(station).unwrap_or(false) {
        let _ = queue.put(station, rank);
    }
}
