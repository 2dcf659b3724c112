// What a station that is taken offers to others.
ghost use Rattle.std.specs.Prelude.{◌≡◌, ◌*◌, ◌<◌, ◌≢◌, IfSome, Some, if◌then◌else◌, slice_index_or};
ghost use Rattle.std.specs.List.{range_with_len};
ghost use Rattle.cost.specs.declared.link.Link.{Link as LinkOf};
ghost use Rattle.routes.specs.Methods.{guided};
ghost use Rattle.routes.specs.Offers.{offered, offered_all};
ghost use Rattle.tables.specs.View.{ledger_of, row_of};
ghost use Rattle.tables.specs.Working.{state_of, Kept};
ghost use Rattle.tables.specs.Following.{along, along_cell, first_by, guide_row, over, over_link};

use super::labels::Offer;
use super::state::{Tables, at};
use cost::{Cost, Link};
use queue::Queue;

// How the first station after the source is known on the way through a station: it is not kept, each next station is the first, or it is that of the
// station itself.
#[derive(Clone, Copy)]
pub(crate) enum Trail {
    Unkept,
    Begins,
    Goes(Option<u16>),
}

// A station that was taken as a row is worked: the row's source, the place where the row begins, the station with its label, the row whose tight
// links alone are followed, and the trail.
#[derive(Clone, Copy)]
pub(crate) struct Taken<K> {
    pub(crate) source: u16,
    pub(crate) from: usize,
    pub(crate) station: u16,
    pub(crate) label: K,
    pub(crate) guide: Option<u16>,
    pub(crate) trail: Trail,
}

impl Trail {
    // The first station after the source on the way to a station that is next.
    fn first(self, next: u16) -> Option<u16>
        ensures value { result ≡ first_by self next }
    {
        match self {
            Trail::Unkept => None,
            Trail::Begins => Some(next),
            Trail::Goes(first) => first,
        }
    }
}

impl<'a, K: Cost> Tables<'a, K> {
    // The laid link at a place.
    fn link(&self, place: u16) -> Link<K>
        requires { place < self.now.count }
        ensures value { (d : LinkOf K) → result ≡ slice_index_or (ledger_of self.now).links place d }
        ensures between { (result.from < self.now.stations) × (result.to < self.now.stations) }
    {
        at(self.list, place as usize)
    }

    // Whether a link is tight in the guiding row, where there is one.
    fn admits(&self, guide: Option<u16>, link: Link<K>) -> bool
        requires guide { IfSome guide (λ w. w < self.now.stations) }
        requires between { (link.from < self.now.stations) × (link.to < self.now.stations) }
        ensures value { result ≡ guided K.Cost.kind (guide_row K.Cost.kind self.now guide) link }
    {
        let Some(row) = guide else {
            return true;
        };
        let end = self.label(row, link.to).rank();
        let over = self.label(row, link.from).join(link.cost);
        over.rank() == end && end != u64::MAX
    }

    // Offers the way over a link that is admitted.
    fn follow_link<Q: Queue>(
        &mut self,
        taken: Taken<K>,
        link: Link<K>,
        firsts: &mut [Option<u16>; 256],
        queue: &mut Q,
    )
        requires source { taken.source < self.old.stations }
        requires from { taken.from ≡ taken.source * self.old.stations }
        requires station { taken.station < self.old.stations }
        requires guide { IfSome taken.guide (λ w. w < self.old.stations) }
        requires between { (link.from < self.old.stations) × (link.to < self.old.stations) }
        requires queue { (Q.Queue.meaning queue.old).stations ≡ self.old.stations }
        ensures state { state_of K.Cost.kind self.new taken.source firsts.new (Q.Queue.meaning queue.new) ≡ (if guided K.Cost.kind (guide_row K.Cost.kind self.old taken.guide) link then offered K.Cost.kind (state_of K.Cost.kind self.old taken.source firsts.old (Q.Queue.meaning queue.old)) (over_link K.Cost.kind taken.label taken.station (first_by taken.trail) link) else state_of K.Cost.kind self.old taken.source firsts.old (Q.Queue.meaning queue.old)) }
        ensures kept { Kept taken.source self.old self.new }
        ensures queue { (Q.Queue.meaning queue.new).stations ≡ (Q.Queue.meaning queue.old).stations }
    {
        if self.admits(taken.guide, link) {
            let offer = Offer {
                from: taken.from,
                station: link.to,
                cost: taken.label.join(link.cost),
                predecessor: taken.station,
                first: taken.trail.first(link.to),
                puts: true,
            };
            self.offer(taken.source, offer, firsts, queue);
        }
    }

    // Follows the links that leave the station. Their places stand side by side, so that loads of them do not wait for one another.
    pub(crate) fn follow_links<Q: Queue>(
        &mut self,
        taken: Taken<K>,
        firsts: &mut [Option<u16>; 256],
        queue: &mut Q,
    )
        requires source { taken.source < self.old.stations }
        requires from { taken.from ≡ taken.source * self.old.stations }
        requires station { taken.station < self.old.stations }
        requires guide { IfSome taken.guide (λ w. (w < self.old.stations) × (w ≢ taken.source)) }
        requires queue { (Q.Queue.meaning queue.old).stations ≡ self.old.stations }
        ensures state { state_of K.Cost.kind self.new taken.source firsts.new (Q.Queue.meaning queue.new) ≡ offered_all K.Cost.kind (state_of K.Cost.kind self.old taken.source firsts.old (Q.Queue.meaning queue.old)) (over K.Cost.kind taken.label taken.station (first_by taken.trail) (guided K.Cost.kind (guide_row K.Cost.kind self.old taken.guide)) (ledger_of self.old).links) }
        ensures kept { Kept taken.source self.old self.new }
        ensures queue { (Q.Queue.meaning queue.new).stations ≡ (Q.Queue.meaning queue.old).stations }
    {
        let part = self.departures.range(taken.station);
        for index in part.start..part.end {
            let link = self.link(self.departures.place(index));
            self.follow_link(taken, link, firsts, queue);
        }
    }

    // Offers one station the way through the station taken, and then on along the row of that station, which begins at a place that is given.
    fn follow_cell<Q: Queue>(
        &mut self,
        taken: Taken<K>,
        along: usize,
        station: u16,
        firsts: &mut [Option<u16>; 256],
        queue: &mut Q,
    )
        requires source { taken.source < self.old.stations }
        requires from { taken.from ≡ taken.source * self.old.stations }
        requires taken { taken.station < self.old.stations }
        requires along { along ≡ taken.station * self.old.stations }
        requires station { station < self.old.stations }
        requires queue { (Q.Queue.meaning queue.old).stations ≡ self.old.stations }
        ensures state { state_of K.Cost.kind self.new taken.source firsts.new (Q.Queue.meaning queue.new) ≡ offered K.Cost.kind (state_of K.Cost.kind self.old taken.source firsts.old (Q.Queue.meaning queue.old)) (along_cell K.Cost.kind taken.label (row_of K.Cost.kind self.old taken.station) station) }
        ensures kept { Kept taken.source self.old self.new }
        ensures queue { (Q.Queue.meaning queue.new).stations ≡ (Q.Queue.meaning queue.old).stations }
    {
        let place = self.place_from(along, taken.station, station);
        let offer = Offer {
            from: taken.from,
            station,
            cost: taken.label.join(self.costs[place]),
            predecessor: self.predecessors[place],
            first: None,
            puts: false,
        };
        self.offer(taken.source, offer, firsts, queue);
    }

    // Goes along the row of the station taken.
    #[tactic(auto, using(crate::proofs::Along::all_done))]
    pub(crate) fn follow_row<Q: Queue>(
        &mut self,
        taken: Taken<K>,
        firsts: &mut [Option<u16>; 256],
        queue: &mut Q,
    )
        requires source { taken.source < self.old.stations }
        requires from { taken.from ≡ taken.source * self.old.stations }
        requires taken { taken.station < self.old.stations }
        requires apart { taken.station ≢ taken.source }
        requires queue { (Q.Queue.meaning queue.old).stations ≡ self.old.stations }
        ensures state { state_of K.Cost.kind self.new taken.source firsts.new (Q.Queue.meaning queue.new) ≡ offered_all K.Cost.kind (state_of K.Cost.kind self.old taken.source firsts.old (Q.Queue.meaning queue.old)) (along K.Cost.kind taken.label (row_of K.Cost.kind self.old taken.station) (range_with_len 0 self.old.stations)) }
        ensures kept { Kept taken.source self.old self.new }
        ensures queue { (Q.Queue.meaning queue.new).stations ≡ (Q.Queue.meaning queue.old).stations }
    {
        let along = taken.station as usize * self.stations as usize;
        for station in 0..self.stations {
            self.follow_cell(taken, along, station, firsts, queue);
        }
    }
}
