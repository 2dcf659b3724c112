// Whole tables, and whether there is one.
ghost use Rattle.std.specs.Prelude.{◌≡◌, ℕ, ◌*◌, ◌≤◌, List, length, IfOk, OnErr, OnOk};
ghost use Rattle.refusal.specs.First.{told};
ghost use Rattle.planfile.specs.Reading.{stations_of};
ghost use Rattle.ledger.specs.Ledger.{Ledger, network};
ghost use Rattle.ledger.specs.Log.{Entry};
ghost use Rattle.ledger.specs.Stands.{Stands};
ghost use Rattle.tables.specs.Read.{file_refusal};
ghost use Rattle.plan.specs.View.{view};
ghost use Rattle.listing.specs.Report.{file_network};
ghost use Rattle.cost.specs.Kind.{Kind};
ghost use Rattle.capi.specs.Sound.{SoundIn};
ghost use Rattle.capi.specs.Table.{Kept, TableIn};
ghost use Rattle.capi.specs.Tabled.{Tabled};

use super::copying::copy_table;
use super::facts::{accept, refuse};
use super::reading::read_plan;
use cost::{Cost, Link};
use filekind::FileKind;
use heap::Heap;
use listing::work_table;
use plan::Plan;
use planfile::{Counts, read};
use queue::Queue;
use refusal::Refusal;

// Whether a file is sound, with its kind byte and counts.
pub(crate) fn sound<K: FileKind>(list: &mut [Link<K>], file: &[u8], facts: &mut [u64]) -> u8
    requires list { length list.old ≡ 4096 }
    ensures answer { SoundIn K.FileKind.format file.now facts.old facts.new result }
{
    match read(file, list) {
        Ok(Counts { stations, links }) => accept(
            facts,
            &[K::kind_byte() as u64, stations as u64, links as u64],
        ),
        Err(refusal) => refuse(facts, refusal.code()),
    }
}

// The whole table of a file, in whatever way is thought to be the fastest.
pub(crate) fn table<K: FileKind>(
    list: &mut [Link<K>],
    cells: &mut [K],
    befores: &mut [u16],
    file: &[u8],
    costs: &mut [u64],
    predecessors: &mut [u16],
    facts: &mut [u64],
) -> u8
    requires list { length list.old ≡ 4096 }
    requires cells { length cells.old ≡ 65536 }
    requires befores { length befores.old ≡ 65536 }
    ensures answer { TableIn K.Cost.kind K.Cost.formed K.FileKind.format file.now costs.old costs.new predecessors.old predecessors.new facts.old facts.new result }
{
    match read_table(list, cells, befores, file, costs, predecessors) {
        Ok(stations) => accept(facts, &[stations as u64]),
        Err(refusal) => refuse(facts, refusal.code()),
    }
}

// Reads a file, as if the caller's lists were its plan's tables, and fills them.
fn read_table<K: FileKind>(
    list: &mut [Link<K>],
    cells: &mut [K],
    befores: &mut [u16],
    file: &[u8],
    costs: &mut [u64],
    predecessors: &mut [u16],
) -> Result<u16, Refusal>
    requires list { length list.old ≡ 4096 }
    requires cells { length cells.old ≡ 65536 }
    requires befores { length befores.old ≡ 65536 }
    ensures refused { told result ≡ file_refusal K.FileKind.format 4096 (length costs.old) (length predecessors.old) file.now }
    ensures stations { IfOk result (λ n. n ≡ stations_of file.now) }
    ensures tabled { OnOk result (Tabled K.Cost.kind (file_network K.Cost.kind K.Cost.formed file.now) costs.old costs.new predecessors.old predecessors.new) }
    ensures kept { OnErr result (Kept costs.old costs.new predecessors.old predecessors.new) }
{
    let cells = &mut cells[..costs.len().min(65536)];
    let befores = &mut befores[..predecessors.len().min(65536)];
    let mut plan = Plan::new(list, cells, befores);
    read_plan(&mut plan, file, costs.len(), predecessors.len())?;
    fill_table(&mut plan, costs, predecessors);
    Ok(plan.counts().stations)
}

// Works the rows of a plan, and copies them.
fn fill_table<K: Cost>(plan: &mut Plan<K>, costs: &mut [u64], predecessors: &mut [u16])
    requires costs_fit { (view K.Cost.kind plan.old).ledger.stations * (view K.Cost.kind plan.old).ledger.stations ≤ length costs.old }
    requires predecessors_fit { (view K.Cost.kind plan.old).ledger.stations * (view K.Cost.kind plan.old).ledger.stations ≤ length predecessors.old }
    ensures stations { (view K.Cost.kind plan.new).ledger.stations ≡ (view K.Cost.kind plan.old).ledger.stations }
    ensures tabled { (start : Ledger K) (log : List (Entry K)) → Stands K.Cost.kind start log (view K.Cost.kind plan.old) → Tabled K.Cost.kind (network (view K.Cost.kind plan.old).ledger) costs.old costs.new predecessors.old predecessors.new }
{
    work_table(plan, &mut Heap::new());
    copy_table(plan, costs, predecessors);
}
