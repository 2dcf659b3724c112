// One entry.
ghost use Rattle.std.specs.Prelude.{◌≡◌};
ghost use Rattle.ledger.specs.Logged.{ByLog, Logged, Reckoned};
ghost use Rattle.plan.specs.View.{view};
ghost use Rattle.replay.specs.Entries.{meant, places_of};
ghost use Rattle.replay.specs.Moment.{moment};
ghost use Rattle.replay.specs.Says.{Says};
ghost use Rattle.replay.specs.Due.{Due};
ghost use Rattle.replay.specs.Leaves.{Leaves};

use super::entry::{Answer, Entry};
use cost::Cost;
use plan::Plan;
use queue::Queue;

// How many places of the pool an entry wants.
pub(crate) fn wanted<K: Copy>(entry: &Entry<K>) -> usize
    ensures value { result ≡ places_of entry.now }
{
    match entry {
        Entry::Route { places, .. } => *places as usize,
        _ => 0,
    }
}

// Calls the plan as an entry says.
pub(crate) fn answer<K: Cost, Q: Queue>(
    plan: &mut Plan<K>,
    queue: &mut Q,
    entry: &Entry<K>,
    list: &mut [u16],
) -> Answer<K>
    ensures logged { Logged K.Cost.kind (meant entry.now) (view K.Cost.kind plan.old) (view K.Cost.kind plan.new) }
    ensures says { Reckoned K.Cost.kind (view K.Cost.kind plan.old) (λ g. Says K.Cost.kind g (moment plan.old (Q.Queue.meaning queue.old)) (moment plan.new (Q.Queue.meaning queue.new)) entry.now result list.old list.new) }
    ensures due { ByLog K.Cost.kind (view K.Cost.kind plan.old) (λ start log. Due K.Cost.kind start log entry.now result list.old) }
    ensures leaves { Leaves K.Cost.kind (moment plan.old (Q.Queue.meaning queue.old)) (moment plan.new (Q.Queue.meaning queue.new)) entry.now result }
{
    match *entry {
        Entry::Lay { from, to, cost } => Answer::Lay(plan.lay(from, to, cost)),
        Entry::Lift { from, to } => Answer::Lift(plan.lift(from, to)),
        Entry::Work { source, method } => {
            let worked = plan.work(source, method, queue);
            Answer::Work(worked.map(|_| queue.taken()))
        }
        Entry::Cost { from, to } => Answer::Cost(plan.cost(from, to)),
        Entry::Route { from, to, .. } => Answer::Route(plan.route(from, to, list)),
        Entry::Check {
            source,
            costs,
            predecessors,
        } => Answer::Check(plan.check(source, costs, predecessors)),
    }
}
