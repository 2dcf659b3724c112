// Working a row.
ghost use Rattle.std.specs.Prelude.{◌≡◌, ◌*◌, ◌<◌, IfSome, OnErr, OnOk, None, true, false, replicate};
ghost use Rattle.queue.specs.Meaning.{Meaning};
ghost use Rattle.routes.specs.Methods.{guided, guiding, offers};
ghost use Rattle.routes.specs.Offers.{offered_all};
ghost use Rattle.ledger.specs.View.{task_of, worked_rows};
ghost use Rattle.ledger.specs.Worked.{EndsIn};
ghost use Rattle.ledger.specs.Effects.{WorkEffect};
ghost use Rattle.tables.specs.View.{ledger_of, row_of, view_of};
ghost use Rattle.tables.specs.Working.{begun_queue, begun_row, state_of, Kept, RowFilled};
ghost use Rattle.tables.specs.Following.{along_by, by_links, first_by, guide_row, over};

use super::following::{Taken, Trail};
use super::state::Tables;
use cost::Cost;
use queue::Queue;
use refusal::Refusal;
use routes::Method;

impl<'a, K: Cost> Tables<'a, K> {
    // Whether a row is worked.
    pub(crate) fn is_worked(&self, row: u16) -> bool
        ensures value { result ≡ (ledger_of self.now).marked row }
        ensures there { result ≡ true → row < self.now.stations }
    {
        self.worked.get(row as usize).copied().unwrap_or(false)
    }

    // The row that guides, where a station has a first station before it: that station's, if it is worked.
    fn guide(&self, first: Option<u16>) -> Option<u16>
        ensures row { guide_row K.Cost.kind self.now result ≡ guiding (worked_rows (view_of K.Cost.kind self.now)) first }
        ensures worked { IfSome result (λ w. (w < self.now.stations) × ((ledger_of self.now).marked w ≡ true)) }
    {
        match first {
            Some(row) if self.is_worked(row) => Some(row),
            _ => None,
        }
    }

    // The station taken, and how its links are to be followed.
    fn taken(
        &self,
        method: Method,
        source: u16,
        station: u16,
        firsts: &[Option<u16>; 256],
    ) -> Taken<K>
        requires source { source < self.now.stations }
        requires station { station < self.now.stations }
        ensures source { result.source ≡ source }
        ensures from { result.from ≡ source * self.now.stations }
        ensures station { result.station ≡ station }
        ensures label { result.label ≡ (row_of K.Cost.kind self.now source).costs station }
        ensures guide { IfSome result.guide (λ w. (w < self.now.stations) × ((ledger_of self.now).marked w ≡ true)) }
        ensures offers { (q : Meaning) → over K.Cost.kind result.label station (first_by result.trail) (guided K.Cost.kind (guide_row K.Cost.kind self.now result.guide)) (ledger_of self.now).links ≡ by_links K.Cost.kind (task_of (view_of K.Cost.kind self.now) source method) (state_of K.Cost.kind self.now source firsts.now q) station }
    {
        let label = self.label(source, station);
        let plain = Taken {
            source,
            from: source as usize * self.stations as usize,
            station,
            label,
            guide: None,
            trail: Trail::Unkept,
        };
        match method {
            Method::Plain | Method::Reuse => plain,
            Method::Prune if station == source => Taken {
                trail: Trail::Begins,
                ..plain
            },
            Method::Prune => {
                let first = firsts[station as usize];
                Taken {
                    guide: self.guide(first),
                    trail: Trail::Goes(first),
                    ..plain
                }
            }
        }
    }

    // Whether the offers of a station go along its row.
    fn goes_along(&self, method: Method, station: u16) -> bool
        ensures value { result ≡ along_by ((ledger_of self.now).marked station) method }
    {
        match method {
            Method::Reuse => self.is_worked(station),
            Method::Plain | Method::Prune => false,
        }
    }

    // Makes the offers of a station that was taken.
    fn follow<Q: Queue>(
        &mut self,
        method: Method,
        source: u16,
        station: u16,
        firsts: &mut [Option<u16>; 256],
        queue: &mut Q,
    )
        requires source { source < self.old.stations }
        requires station { station < self.old.stations }
        requires unworked { (ledger_of self.old).marked source ≡ false }
        requires queue { (Q.Queue.meaning queue.old).stations ≡ self.old.stations }
        ensures state { state_of K.Cost.kind self.new source firsts.new (Q.Queue.meaning queue.new) ≡ offered_all K.Cost.kind (state_of K.Cost.kind self.old source firsts.old (Q.Queue.meaning queue.old)) (offers K.Cost.kind (task_of (view_of K.Cost.kind self.old) source method) (state_of K.Cost.kind self.old source firsts.old (Q.Queue.meaning queue.old)) station) }
        ensures kept { Kept source self.old self.new }
        ensures queue { (Q.Queue.meaning queue.new).stations ≡ (Q.Queue.meaning queue.old).stations }
    {
        let taken = self.taken(method, source, station, firsts);
        if self.goes_along(method, station) {
            self.follow_row(taken, firsts, queue);
        } else {
            self.follow_links(taken, firsts, queue);
        }
    }

    // Works a row by a method, with a queue that is reset for it, and marks it worked. Refused are a source that is no station, and a row that is
    // worked. The row is cleared before it begins, so that its run hangs on no cell of it.
    pub(crate) fn fill_row<Q: Queue>(
        &mut self,
        source: u16,
        method: Method,
        queue: &mut Q,
    ) -> Result<(), Refusal>
        ensures effect { WorkEffect K.Cost.kind (view_of K.Cost.kind self.old) (view_of K.Cost.kind self.new) source method result (Q.Queue.meaning queue.new) }
        ensures after { OnOk result (RowFilled source self.old self.new) }
        ensures same { OnErr result (self.new ≡ self.old) }
        ensures queue { OnErr result (Q.Queue.meaning queue.new ≡ Q.Queue.meaning queue.old) }
    {
        if source >= self.stations {
            return Err(Refusal::NoStation);
        }
        if self.is_worked(source) {
            return Err(Refusal::Worked);
        }
        queue.reset(self.stations)?;
        queue.put(source, K::zero().rank())?;
        self.begin_row(source);
        self.run(method, source, queue);
        self.worked[source as usize] = true;
        Ok(())
    }

    // Takes station after station, and makes its offers, until nobody waits. By plain that is Dijkstra's method.
    fn run<Q: Queue>(&mut self, method: Method, source: u16, queue: &mut Q)
        requires source { source < self.old.stations }
        requires unworked { (ledger_of self.old).marked source ≡ false }
        requires row { row_of K.Cost.kind self.old source ≡ begun_row K.Cost.kind source }
        requires queue { Q.Queue.meaning queue.old ≡ begun_queue K.Cost.kind self.old.stations source }
        ensures ends { EndsIn K.Cost.kind (task_of (view_of K.Cost.kind self.old) source method) (row_of K.Cost.kind self.new source) (Q.Queue.meaning queue.new) }
        ensures kept { Kept source self.old self.new }
    {
        let mut firsts = no_firsts();
        while let Some(station) = queue.take() {
            self.follow(method, source, station, &mut firsts, queue);
        }
    }
}

// No station has a first one yet.
fn no_firsts() -> [Option<u16>; 256]
    ensures none { result ≡ replicate 256 None }
{
    [None; 256]
}
