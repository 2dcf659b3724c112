// The calls on a plan, each with the promise that it keeps over every site log.
ghost use Rattle.std.specs.Prelude.{◌≡◌, ℕ, length, OnErr, OnOk};
ghost use Rattle.ledger.specs.Log.{lay, lift, work, cost, route, check};
ghost use Rattle.ledger.specs.Due.{CostGiven, RouteGiven};
ghost use Rattle.ledger.specs.Logged.{ByLog, Logged, Reckoned};
ghost use Rattle.ledger.specs.Effects.{CheckEffect, CostEffect, LayEffect, LiftEffect, RouteEffect, WorkEffect};
ghost use Rattle.ledger.specs.Answers.{CostAnswer, LayAnswer, LiftAnswer, WorkAnswer};
ghost use Rattle.ledger.specs.RouteAnswer.{RouteAnswer};
ghost use Rattle.ledger.specs.CheckAnswer.{CheckAnswer};
ghost use Rattle.ledger.specs.After.{after_lay, after_lift};
ghost use Rattle.tables.specs.Copied.{CopyEffect};
ghost use Rattle.tables.specs.Relinked.{Relinked};
ghost use Rattle.tables.specs.Working.{RowFilled};
ghost use Rattle.tables.specs.Copies.{CopyAnswer};
ghost use Rattle.tables.specs.View.{view_of as view};

use super::state::Tables;
use cost::{Cost, Link};
use planfile::Counts;
use queue::Queue;
use refusal::Refusal;
use routes::Method;

impl<'a, K: Cost> Tables<'a, K> {
    // Lays a link after those that are laid; then no row is worked.
    #[tactic(auto, using(ledger::proofs::Calls::laying))]
    pub fn lay(&mut self, from: u16, to: u16, cost: K) -> Result<(), Refusal>
        ensures effect { LayEffect K.Cost.kind (view K.Cost.kind self.old) (view K.Cost.kind self.new) from to cost result }
        ensures logged { Logged K.Cost.kind (lay from to cost) (view K.Cost.kind self.old) (view K.Cost.kind self.new) }
        ensures answer { Reckoned K.Cost.kind (view K.Cost.kind self.old) (λ g. LayAnswer K.Cost.kind g from to cost result) }
        ensures left { OnOk result (Relinked K.Cost.kind (after_lay (view K.Cost.kind self.old).ledger from to cost) self.old self.new) }
        ensures same { OnErr result (self.new ≡ self.old) }
    {
        self.append_link(from, to, cost)
    }

    // Lifts the link from a station to another; then no row is worked.
    #[tactic(auto, using(ledger::proofs::Calls::lifting))]
    pub fn lift(&mut self, from: u16, to: u16) -> Result<(), Refusal>
        ensures effect { LiftEffect K.Cost.kind (view K.Cost.kind self.old) (view K.Cost.kind self.new) from to result }
        ensures logged { Logged K.Cost.kind (lift from to) (view K.Cost.kind self.old) (view K.Cost.kind self.new) }
        ensures answer { Reckoned K.Cost.kind (view K.Cost.kind self.old) (λ g. LiftAnswer g from to result) }
        ensures left { OnOk result (Relinked K.Cost.kind (after_lift (view K.Cost.kind self.old).ledger from to) self.old self.new) }
        ensures same { OnErr result (self.new ≡ self.old) }
    {
        self.remove_link(from, to)
    }

    // Works a row by a method, and marks it worked; the queue is reset for it.
    pub fn work<Q: Queue>(
        &mut self,
        source: u16,
        method: Method,
        queue: &mut Q,
    ) -> Result<(), Refusal>
        ensures effect { WorkEffect K.Cost.kind (view K.Cost.kind self.old) (view K.Cost.kind self.new) source method result (Q.Queue.meaning queue.new) }
        ensures logged { Logged K.Cost.kind (work source method) (view K.Cost.kind self.old) (view K.Cost.kind self.new) }
        ensures answer { Reckoned K.Cost.kind (view K.Cost.kind self.old) (λ g. WorkAnswer K.Cost.kind g (view K.Cost.kind self.old).rows source method result ((view K.Cost.kind self.new).rows source) (Q.Queue.meaning queue.new)) }
        ensures left { OnOk result (RowFilled source self.old self.new) }
        ensures same { OnErr result (self.new ≡ self.old) }
        ensures queue { OnErr result (Q.Queue.meaning queue.new ≡ Q.Queue.meaning queue.old) }
    {
        self.fill_row(source, method, queue)
    }

    // How many stations there are, and laid links.
    pub fn counts(&self) -> Counts
        ensures stations { result.stations ≡ (view K.Cost.kind self.now).ledger.stations }
        ensures links { result.links ≡ length (view K.Cost.kind self.now).ledger.links }
    {
        self.counted()
    }

    // The least cost from a station to another, FAR included: answered exactly where both are stations, and the first one's row was worked since a
    // link was last laid or lifted.
    #[tactic(auto, using(ledger::proofs::Calls::asking_cost))]
    pub fn cost(&self, from: u16, to: u16) -> Result<K, Refusal>
        ensures effect { CostEffect (view K.Cost.kind self.now) from to result }
        ensures logged { Logged K.Cost.kind (cost from to) (view K.Cost.kind self.now) (view K.Cost.kind self.now) }
        ensures answer { Reckoned K.Cost.kind (view K.Cost.kind self.now) (λ g. CostAnswer K.Cost.kind g ((view K.Cost.kind self.now).rows from) from to result) }
        ensures due { ByLog K.Cost.kind (view K.Cost.kind self.now) (λ start log. CostGiven K.Cost.kind start log from to result) }
    {
        self.cost_at(from, to)
    }

    // The laid links, in the order in which they were laid.
    pub fn links(&self) -> &[Link<K>]
        ensures value { result.now ≡ (view K.Cost.kind self.now).ledger.links }
    {
        self.laid()
    }

    // Copies a worked row to the start of two lists: costs by their ranks, and predecessors. Places after them stay.
    #[tactic(auto, using(crate::proofs::RowsCopied::copy_reckoned))]
    pub fn copy_row(
        &self,
        source: u16,
        costs: &mut [u64],
        predecessors: &mut [u16],
    ) -> Result<(), Refusal>
        ensures effect { CopyEffect K.Cost.kind (view K.Cost.kind self.now) source costs.old costs.new predecessors.old predecessors.new result }
        ensures answer { Reckoned K.Cost.kind (view K.Cost.kind self.now) (λ g. CopyAnswer K.Cost.kind g ((view K.Cost.kind self.now).rows source) source costs.old predecessors.old result) }
    {
        self.copy_worked(source, costs, predecessors)
    }

    // A least route from a station to another: its stations, written at the start of the list, and how many they are. Only where the cost is answered,
    // and is below FAR; a list with a place for each station always gets one there.
    pub fn route(&self, from: u16, to: u16, list: &mut [u16]) -> Result<usize, Refusal>
        ensures effect { RouteEffect K.Cost.kind (view K.Cost.kind self.now) from to list.old list.new result }
        ensures logged { (places : ℕ) → Logged K.Cost.kind (route from to places) (view K.Cost.kind self.now) (view K.Cost.kind self.now) }
        ensures answer { Reckoned K.Cost.kind (view K.Cost.kind self.now) (λ g. RouteAnswer K.Cost.kind g ((view K.Cost.kind self.now).rows from) from to list.old list.new result) }
        ensures due { ByLog K.Cost.kind (view K.Cost.kind self.now) (λ start log. RouteGiven K.Cost.kind start log from to (length list.old) result) }
    {
        self.trace_route(from, to, list)
    }

    // Tests a supplier's row against the laid links: refused with a station that fails, and a cause by which it does.
    pub fn check(&self, source: u16, costs: &[K], predecessors: &[u16]) -> Result<(), Refusal>
        ensures effect { CheckEffect K.Cost.kind (view K.Cost.kind self.now).ledger source costs.now predecessors.now result }
        ensures logged { Logged K.Cost.kind (check source costs.now predecessors.now) (view K.Cost.kind self.now) (view K.Cost.kind self.now) }
        ensures answer { Reckoned K.Cost.kind (view K.Cost.kind self.now) (λ g. CheckAnswer K.Cost.kind g source costs.now predecessors.now result) }
    {
        self.test_row(source, costs, predecessors)
    }
}
