// Whole tables by one method.
ghost use Rattle.std.specs.Prelude.{◌≡◌, ℕ, ◌*◌, ◌≤◌, List, length, IfOk, OnErr, OnOk};
ghost use Rattle.cost.specs.Kind.{Kind};
ghost use Rattle.planfile.specs.Reading.{stations_of};
ghost use Rattle.ledger.specs.Ledger.{Ledger};
ghost use Rattle.ledger.specs.Log.{Entry};
ghost use Rattle.ledger.specs.Stands.{Stands};
ghost use Rattle.plan.specs.View.{view};
ghost use Rattle.listing.specs.Report.{file_network};
ghost use Rattle.capi.specs.ByMethod.{table_by_refusal, FilledBy, TableByIn, TabledBy};
ghost use Rattle.capi.specs.Faults.{fault_of};
ghost use Rattle.capi.specs.Table.{Kept};

use super::choices::{Choice, Store, choose};
use super::copying::copy_table;
use super::facts::{accept, refuse};
use super::fault::Fault;
use super::reading::read_plan;
use cost::{Cost, Link};
use filekind::FileKind;
use heap::Heap;
use listing::work_all;
use plan::Plan;
use queue::Queue;
use routes::Method;
use shelf::Shelf;

// The whole table of a file, by the method of a number, with the queue of a number.
pub(crate) fn table_by<K: FileKind>(
    list: &mut [Link<K>],
    cells: &mut [K],
    befores: &mut [u16],
    file: &[u8],
    method: u8,
    queue: u8,
    costs: &mut [u64],
    predecessors: &mut [u16],
    facts: &mut [u64],
) -> u8
    requires list { length list.old ≡ 4096 }
    requires cells { length cells.old ≡ 65536 }
    requires befores { length befores.old ≡ 65536 }
    ensures answer { TableByIn K.Cost.kind K.Cost.formed K.FileKind.format file.now method queue costs.old costs.new predecessors.old predecessors.new facts.old facts.new result }
{
    match read_table_by(
        list,
        cells,
        befores,
        file,
        method,
        queue,
        costs,
        predecessors,
    ) {
        Ok(stations) => accept(facts, &[stations as u64]),
        Err(fault) => refuse(facts, fault.code()),
    }
}

// Reads a file, as if the caller's lists were its plan's tables, and fills them.
fn read_table_by<K: FileKind>(
    list: &mut [Link<K>],
    cells: &mut [K],
    befores: &mut [u16],
    file: &[u8],
    method: u8,
    queue: u8,
    costs: &mut [u64],
    predecessors: &mut [u16],
) -> Result<u16, Fault>
    requires list { length list.old ≡ 4096 }
    requires cells { length cells.old ≡ 65536 }
    requires befores { length befores.old ≡ 65536 }
    ensures refused { fault_of result ≡ table_by_refusal K.FileKind.format method queue costs.old predecessors.old file.now }
    ensures stations { IfOk result (λ n. n ≡ stations_of file.now) }
    ensures tabled { OnOk result (TabledBy K.Cost.kind (file_network K.Cost.kind K.Cost.formed file.now) method costs.old costs.new predecessors.old predecessors.new) }
    ensures kept { OnErr result (Kept costs.old costs.new predecessors.old predecessors.new) }
{
    let cells = &mut cells[..costs.len().min(65536)];
    let befores = &mut befores[..predecessors.len().min(65536)];
    let mut plan = Plan::new(list, cells, befores);
    read_plan(&mut plan, file, costs.len(), predecessors.len())?;
    let choice = choose(method, queue)?;
    Ok(fill_in_store(&mut plan, choice, costs, predecessors))
}

// Fills the caller's lists, with the queue that was chosen.
fn fill_in_store<K: Cost>(
    plan: &mut Plan<K>,
    choice: Choice,
    costs: &mut [u64],
    predecessors: &mut [u16],
) -> u16
    requires costs_fit { (view K.Cost.kind plan.old).ledger.stations * (view K.Cost.kind plan.old).ledger.stations ≤ length costs.old }
    requires predecessors_fit { (view K.Cost.kind plan.old).ledger.stations * (view K.Cost.kind plan.old).ledger.stations ≤ length predecessors.old }
    ensures stations { result ≡ (view K.Cost.kind plan.old).ledger.stations }
    ensures filled { (start : Ledger K) (log : List (Entry K)) → Stands K.Cost.kind start log (view K.Cost.kind plan.old) → FilledBy K.Cost.kind choice.method plan.old costs.old costs.new predecessors.old predecessors.new }
{
    match choice.store {
        Store::Heap => fill_by(plan, choice.method, &mut Heap::new(), costs, predecessors),
        Store::Shelf => fill_by(plan, choice.method, &mut Shelf::new(), costs, predecessors),
    }
}

// Works the rows of a plan in row order, copies them, and answers how many they are.
fn fill_by<K: Cost, Q: Queue>(
    plan: &mut Plan<K>,
    method: Method,
    queue: &mut Q,
    costs: &mut [u64],
    predecessors: &mut [u16],
) -> u16
    requires costs_fit { (view K.Cost.kind plan.old).ledger.stations * (view K.Cost.kind plan.old).ledger.stations ≤ length costs.old }
    requires predecessors_fit { (view K.Cost.kind plan.old).ledger.stations * (view K.Cost.kind plan.old).ledger.stations ≤ length predecessors.old }
    ensures stations { result ≡ (view K.Cost.kind plan.old).ledger.stations }
    ensures filled { (start : Ledger K) (log : List (Entry K)) → Stands K.Cost.kind start log (view K.Cost.kind plan.old) → FilledBy K.Cost.kind method plan.old costs.old costs.new predecessors.old predecessors.new }
{
    work_all(plan, method, queue);
    copy_table(plan, costs, predecessors);
    plan.counts().stations
}
