// Rows of a plan, worked one after the other.
ghost use Rattle.std.specs.Prelude.{◌≡◌, ℕ, ◌<◌, ◌++◌, true, List};
ghost use Rattle.cost.specs.Kind.{Kind};
ghost use Rattle.ledger.specs.Ledger.{Ledger, network};
ghost use Rattle.ledger.specs.Log.{Entry};
ghost use Rattle.ledger.specs.Stands.{Stands};
ghost use Rattle.plan.specs.View.{view};
ghost use Rattle.tables.specs.Lent.{SameMemory};
ghost use Rattle.routes.specs.declared.method.Method.TheVariants.{Reuse};
ghost use Rattle.listing.specs.AllRows.{works, AllWorked};
ghost use Rattle.listing.specs.InTurn.{works_of, AnyOrder, InTurn};

use super::order::order_of;
use cost::Cost;
use plan::Plan;
use queue::Queue;
use routes::Method;

// Works each row in row order; that of a worked row is refused, and changes nothing.
pub fn work_all<K: Cost, Q: Queue>(plan: &mut Plan<K>, method: Method, queue: &mut Q)
    ensures rows { AllWorked K.Cost.kind method plan.old (Q.Queue.meaning queue.old) (view K.Cost.kind plan.old).ledger.stations plan.new (Q.Queue.meaning queue.new) }
    ensures memory { SameMemory plan.old plan.new }
    ensures logged { (start : Ledger K) (log : List (Entry K)) → Stands K.Cost.kind start log (view K.Cost.kind plan.old) → Stands K.Cost.kind start (log ++ works (view K.Cost.kind plan.old).ledger.stations method) (view K.Cost.kind plan.new) }
    ensures marked { (a : ℕ) → a < (view K.Cost.kind plan.old).ledger.stations → (view K.Cost.kind plan.new).ledger.marked a ≡ true }
    ensures network { network (view K.Cost.kind plan.new).ledger ≡ network (view K.Cost.kind plan.old).ledger }
{
    for source in 0..plan.counts().stations {
        // refused where the row is worked
        let _ = plan.work(source, method, queue);
    }
}

// Works the rows of the sources, in turn; that of a worked row, or of no station, is refused, and changes nothing.
pub fn work_each<K: Cost, Q: Queue>(
    plan: &mut Plan<K>,
    sources: &[u16],
    method: Method,
    queue: &mut Q,
)
    ensures rows { InTurn K.Cost.kind method plan.old (Q.Queue.meaning queue.old) sources.now plan.new (Q.Queue.meaning queue.new) }
    ensures memory { SameMemory plan.old plan.new }
    ensures logged { (start : Ledger K) (log : List (Entry K)) → Stands K.Cost.kind start log (view K.Cost.kind plan.old) → Stands K.Cost.kind start (log ++ works_of sources.now method) (view K.Cost.kind plan.new) }
    ensures network { network (view K.Cost.kind plan.new).ledger ≡ network (view K.Cost.kind plan.old).ledger }
{
    for source in sources {
        let _ = plan.work(*source, method, queue);
    }
}

// Works each row in whatever order is thought to be the fastest. Each is right, so the order is free; by reuse, since rows that many links lead to
// come first.
pub fn work_table<K: Cost, Q: Queue>(plan: &mut Plan<K>, queue: &mut Q)
    ensures rows { AnyOrder K.Cost.kind plan.old (Q.Queue.meaning queue.old) plan.new (Q.Queue.meaning queue.new) }
    ensures memory { SameMemory plan.old plan.new }
    ensures marked { (a : ℕ) → a < (view K.Cost.kind plan.old).ledger.stations → (view K.Cost.kind plan.new).ledger.marked a ≡ true }
    ensures network { network (view K.Cost.kind plan.new).ledger ≡ network (view K.Cost.kind plan.old).ledger }
{
    let stations = plan.counts().stations;
    let order = order_of(plan.links(), stations);
    work_each(plan, &order[..stations as usize], Method::Reuse, queue);
    // whatever the order has left out
    work_all(plan, Method::Reuse, queue);
}
