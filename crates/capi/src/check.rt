// The test of a supplier's row.
ghost use Rattle.std.specs.Prelude.{◌≡◌, ℕ, ◌≤◌, ◌++◌, List, drop, length, take};
ghost use Rattle.cost.specs.Kind.{Kind};
ghost use Rattle.ledger.specs.CheckAnswer.{CheckAnswer};
ghost use Rattle.ledger.specs.Ledger.{Ledger};
ghost use Rattle.ledger.specs.Log.{Entry};
ghost use Rattle.ledger.specs.Stands.{Stands};
ghost use Rattle.plan.specs.View.{view};
ghost use Rattle.capi.specs.Check.{costs_of, CheckIn, CheckTold};

use super::facts::{accept, refuse};
use super::reading::read_plan;
use cost::{Cost, Link};
use filekind::FileKind;
use plan::Plan;
use refusal::Refusal;

// Tests a supplier's row against a file's links; the caller lends a row for its costs.
pub(crate) fn check<K: FileKind>(
    list: &mut [Link<K>],
    cells: &mut [K],
    befores: &mut [u16],
    row: &mut [K],
    file: &[u8],
    source: u16,
    costs: &[u64],
    predecessors: &[u16],
    facts: &mut [u64],
) -> u8
    requires list { length list.old ≡ 4096 }
    requires cells { length cells.old ≡ 65536 }
    requires befores { length befores.old ≡ 65536 }
    requires row { length row.old ≡ 256 }
    ensures answer { CheckIn K.Cost.kind K.Cost.formed K.FileKind.format file.now source costs.now predecessors.now facts.old facts.new result }
{
    let mut plan = Plan::new(list, cells, befores);
    match read_plan(&mut plan, file, 65536, 65536) {
        Ok(()) => tell_check(&plan, row, source, costs, predecessors, facts),
        Err(refusal) => refuse(facts, refusal.code()),
    }
}

// Tests a row, and tells what came of it.
fn tell_check<K: Cost>(
    plan: &Plan<K>,
    row: &mut [K],
    source: u16,
    costs: &[u64],
    predecessors: &[u16],
    facts: &mut [u64],
) -> u8
    requires row { length row.old ≡ 256 }
    ensures told { (start : Ledger K) (log : List (Entry K)) → Stands K.Cost.kind start log (view K.Cost.kind plan.now) → CheckTold K.Cost.kind (view K.Cost.kind plan.now).ledger source (costs_of K.Cost.kind K.Cost.formed costs.now) predecessors.now facts.old facts.new result }
{
    match check_numbers(plan, row, source, costs, predecessors) {
        Ok(()) => accept(facts, &[]),
        Err(refusal) => refuse(facts, refusal.code()),
    }
}

// Tests a row whose costs are numbers.
fn check_numbers<K: Cost>(
    plan: &Plan<K>,
    row: &mut [K],
    source: u16,
    costs: &[u64],
    predecessors: &[u16],
) -> Result<(), Refusal>
    requires row { length row.old ≡ 256 }
    ensures tested { (start : Ledger K) (log : List (Entry K)) → Stands K.Cost.kind start log (view K.Cost.kind plan.now) → CheckAnswer K.Cost.kind (view K.Cost.kind plan.now).ledger source (costs_of K.Cost.kind K.Cost.formed costs.now) predecessors.now result }
{
    let stations = plan.counts().stations as usize;
    if source as usize >= stations {
        return Err(Refusal::NoStation);
    }
    if costs.len() != stations || predecessors.len() != stations {
        return Err(Refusal::RowLength);
    }
    form_costs(costs, row);
    plan.check(source, &row[..stations], predecessors)
}

// Forms the costs of numbers at the start of a row; a number that is no cost's stands for FAR.
#[tactic(auto, using(crate::proofs::FormedCosts::formed_more))]
fn form_costs<K: Cost>(numbers: &[u64], row: &mut [K])
    requires room { length numbers.now ≤ length row.old }
    ensures after { row.new ≡ costs_of K.Cost.kind K.Cost.formed numbers.now ++ drop (length numbers.now) row.old }
{
    for (station, cost) in row[..numbers.len()].iter_mut().enumerate() {
        *cost = K::form(numbers[station]).unwrap_or(K::far());
    }
}
