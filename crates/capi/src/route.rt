// A route.
ghost use Rattle.std.specs.Prelude.{◌≡◌, ℕ, false, List, length};
ghost use Rattle.cost.specs.Kind.{Kind};
ghost use Rattle.ledger.specs.After.{after_work};
ghost use Rattle.ledger.specs.Ledger.{Ledger};
ghost use Rattle.ledger.specs.Log.{Entry};
ghost use Rattle.ledger.specs.Stands.{Stands};
ghost use Rattle.plan.specs.View.{view};
ghost use Rattle.capi.specs.Route.{RouteFound, RouteIn, RouteTold};

use super::facts::{accept, refuse};
use super::reading::read_plan;
use cost::{Cost, Link};
use filekind::FileKind;
use heap::Heap;
use plan::Plan;
use queue::Queue;
use refusal::Refusal;
use routes::Method;

// A route that was found: how many stations it has, and its cost.
#[derive(Clone, Copy)]
pub(crate) struct Found {
    pub(crate) count: usize,
    pub(crate) cost: u64,
}

// A route between two stations of a file, written at the start of a list.
pub(crate) fn route<K: FileKind>(
    links: &mut [Link<K>],
    cells: &mut [K],
    befores: &mut [u16],
    file: &[u8],
    from: u16,
    to: u16,
    list: &mut [u16],
    facts: &mut [u64],
) -> u8
    requires links { length links.old ≡ 4096 }
    requires cells { length cells.old ≡ 65536 }
    requires befores { length befores.old ≡ 65536 }
    ensures answer { RouteIn K.Cost.kind K.Cost.formed K.FileKind.format file.now from to list.old list.new facts.old facts.new result }
{
    let mut plan = Plan::new(links, cells, befores);
    match read_plan(&mut plan, file, 65536, 65536) {
        Ok(()) => tell_route(&mut plan, from, to, list, facts),
        Err(refusal) => refuse(facts, refusal.code()),
    }
}

// Works the row that a route begins with, and tells the route.
fn tell_route<K: Cost>(
    plan: &mut Plan<K>,
    from: u16,
    to: u16,
    list: &mut [u16],
    facts: &mut [u64],
) -> u8
    requires unworked { (view K.Cost.kind plan.old).ledger.marked from ≡ false }
    ensures told { (start : Ledger K) (log : List (Entry K)) → Stands K.Cost.kind start log (view K.Cost.kind plan.old) → RouteTold K.Cost.kind (after_work (view K.Cost.kind plan.old).ledger from) from to list.old list.new facts.old facts.new result }
{
    match find_route(plan, from, to, list) {
        Ok(Found { count, cost }) => accept(facts, &[count as u64, cost]),
        Err(refusal) => refuse(facts, refusal.code()),
    }
}

// Works the row that a route begins with, and finds the route.
fn find_route<K: Cost>(
    plan: &mut Plan<K>,
    from: u16,
    to: u16,
    list: &mut [u16],
) -> Result<Found, Refusal>
    requires unworked { (view K.Cost.kind plan.old).ledger.marked from ≡ false }
    ensures found { (start : Ledger K) (log : List (Entry K)) → Stands K.Cost.kind start log (view K.Cost.kind plan.old) → RouteFound K.Cost.kind (after_work (view K.Cost.kind plan.old).ledger from) from to list.old list.new result }
{
    plan.work(from, Method::Plain, &mut Heap::new())?;
    let cost = plan.cost(from, to)?.rank();
    let count = plan.route(from, to, list)?;
    Ok(Found { count, cost })
}
