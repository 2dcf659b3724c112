// One row.
ghost use Rattle.std.specs.Prelude.{◌≡◌, ℕ, ◌<◌, ◌≤◌, ◌||◌, false, List, length, None, Some, IfOk, OnErr, OnOk, nat_le, nat_lt};
ghost use Rattle.cost.specs.Kind.{Kind};
ghost use Rattle.refusal.specs.Code.{bare};
ghost use Rattle.refusal.specs.First.{refused_if, told};
ghost use Rattle.planfile.specs.Reading.{stations_of};
ghost use Rattle.ledger.specs.Ledger.{Ledger};
ghost use Rattle.ledger.specs.Log.{Entry};
ghost use Rattle.ledger.specs.Stands.{Stands};
ghost use Rattle.plan.specs.View.{view};
ghost use Rattle.capi.specs.Choices.{method_named};
ghost use Rattle.capi.specs.Faults.{fault_of};
ghost use Rattle.capi.specs.Row.{file_view, row_refusal, RowFilled, RowIn, WorkedBy};
ghost use Rattle.capi.specs.Table.{Kept};

use super::choices::{Choice, Store, choose};
use super::facts::{accept, refuse};
use super::fault::Fault;
use super::reading::read_plan;
use cost::{Cost, Link};
use filekind::FileKind;
use heap::Heap;
use plan::Plan;
use queue::Queue;
use refusal::Refusal;
use routes::Method;
use shelf::Shelf;

// What is told of a row that was worked.
#[derive(Clone, Copy)]
pub(crate) struct WorkedRow {
    stations: u16,
    taken: u16,
}

// One row of a file, by the method of a number, with the queue of a number.
pub(crate) fn row<K: FileKind>(
    list: &mut [Link<K>],
    cells: &mut [K],
    befores: &mut [u16],
    file: &[u8],
    source: u16,
    method: u8,
    queue: u8,
    costs: &mut [u64],
    predecessors: &mut [u16],
    facts: &mut [u64],
) -> u8
    requires list { length list.old ≡ 4096 }
    requires cells { length cells.old ≡ 65536 }
    requires befores { length befores.old ≡ 65536 }
    ensures answer { RowIn K.Cost.kind K.Cost.formed K.FileKind.format file.now source method queue costs.old costs.new predecessors.old predecessors.new facts.old facts.new result }
{
    let mut plan = Plan::new(list, cells, befores);
    match read_row(&mut plan, file, source, method, queue, costs, predecessors) {
        Ok(WorkedRow { stations, taken }) => accept(facts, &[stations as u64, taken as u64]),
        Err(fault) => refuse(facts, fault.code()),
    }
}

// Reads a file, works the row and copies it.
fn read_row<K: FileKind>(
    plan: &mut Plan<K>,
    file: &[u8],
    source: u16,
    method: u8,
    queue: u8,
    costs: &mut [u64],
    predecessors: &mut [u16],
) -> Result<WorkedRow, Fault>
    requires list { length plan.old.list.now ≡ 4096 }
    requires cells { length plan.old.costs.now ≡ 65536 }
    requires befores { length plan.old.predecessors.now ≡ 65536 }
    ensures refused { fault_of result ≡ row_refusal K.FileKind.format source method queue costs.old predecessors.old file.now }
    ensures stations { IfOk result (λ x. x.stations ≡ stations_of file.now) }
    ensures worked { IfOk result (λ x. WorkedBy K.Cost.kind K.Cost.formed file.now source method costs.old costs.new predecessors.old predecessors.new x.taken) }
    ensures kept { OnErr result (Kept costs.old costs.new predecessors.old predecessors.new) }
{
    read_plan(plan, file, 65536, 65536)?;
    let stations = plan.counts().stations;
    test_row_lists(stations, source, costs.len(), predecessors.len())?;
    let choice = choose(method, queue)?;
    let taken = fill_in_store(plan, source, choice, costs, predecessors);
    Ok(WorkedRow { stations, taken })
}

// Refuses a source that is no station, and lists that are shorter than a row.
fn test_row_lists(
    stations: u16,
    source: u16,
    costs: usize,
    predecessors: usize,
) -> Result<(), Refusal>
    ensures refused { told result ≡ refused_if (nat_le stations source) (bare 3) (refused_if (nat_lt costs stations || nat_lt predecessors stations) (bare 12) None) }
{
    if source >= stations {
        return Err(Refusal::NoStation);
    }
    if costs < stations as usize || predecessors < stations as usize {
        return Err(Refusal::ShortBuffer);
    }
    Ok(())
}

// Works a row with the queue that was chosen, copies it, and answers how many stations were taken.
fn fill_in_store<K: Cost>(
    plan: &mut Plan<K>,
    source: u16,
    choice: Choice,
    costs: &mut [u64],
    predecessors: &mut [u16],
) -> u16
    requires source { source < (view K.Cost.kind plan.old).ledger.stations }
    requires unworked { (view K.Cost.kind plan.old).ledger.marked source ≡ false }
    requires costs_fit { (view K.Cost.kind plan.old).ledger.stations ≤ length costs.old }
    requires predecessors_fit { (view K.Cost.kind plan.old).ledger.stations ≤ length predecessors.old }
    ensures filled { (start : Ledger K) (log : List (Entry K)) → Stands K.Cost.kind start log (view K.Cost.kind plan.old) → RowFilled K.Cost.kind (view K.Cost.kind plan.old) source choice.method costs.old costs.new predecessors.old predecessors.new result }
{
    let method = choice.method;
    match choice.store {
        Store::Heap => fill_row(plan, source, method, &mut Heap::new(), costs, predecessors),
        Store::Shelf => fill_row(plan, source, method, &mut Shelf::new(), costs, predecessors),
    }
}

// Works a row, copies it, and answers how many stations were taken.
fn fill_row<K: Cost, Q: Queue>(
    plan: &mut Plan<K>,
    source: u16,
    method: Method,
    queue: &mut Q,
    costs: &mut [u64],
    predecessors: &mut [u16],
) -> u16
    requires source { source < (view K.Cost.kind plan.old).ledger.stations }
    requires unworked { (view K.Cost.kind plan.old).ledger.marked source ≡ false }
    requires costs_fit { (view K.Cost.kind plan.old).ledger.stations ≤ length costs.old }
    requires predecessors_fit { (view K.Cost.kind plan.old).ledger.stations ≤ length predecessors.old }
    ensures filled { (start : Ledger K) (log : List (Entry K)) → Stands K.Cost.kind start log (view K.Cost.kind plan.old) → RowFilled K.Cost.kind (view K.Cost.kind plan.old) source method costs.old costs.new predecessors.old predecessors.new result }
{
    // neither is refused
    let _ = plan.work(source, method, queue);
    let _ = plan.copy_row(source, costs, predecessors);
    queue.taken()
}
