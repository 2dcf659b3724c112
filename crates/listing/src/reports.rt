// The report of a plan file: the least cost of each pair of stations, or the line of the refusal.
ghost use Rattle.std.specs.Prelude.{◌≡◌, length, IfOk, string_bytes};
ghost use Rattle.account.specs.Lines.{refused_line};
ghost use Rattle.ledger.specs.Ledger.{network};
ghost use Rattle.ledger.specs.Logged.{Reckoned};
ghost use Rattle.plan.specs.View.{view};
ghost use Rattle.listing.specs.Report.{Listed, Report, ReportIn, most_cells, most_links};

use super::limit::MOST_LINKS;
use super::table::table_lines;
use super::works::work_all;
use cost::{Cost, Link, Split, Sum};
use filekind::{FileKind, Kind};
use heap::Heap;
use plan::Plan;
use queue::Queue;
use refusal::Code;
use routes::Method;
use std::alloc::{AllocError, Global};

// The cells of a table for the most stations that it may have, 64.
const MOST_CELLS: usize = 4096;

// Works the rows of a plan, and tells its kind, its counts and its least costs.
fn worked_text<K: FileKind>(heap: Global, plan: &mut Plan<K>) -> Result<String, AllocError>
    ensures value { Reckoned K.Cost.kind (view K.Cost.kind plan.old) (λ g. IfOk result (λ s. Listed K.Cost.kind K.FileKind.format (network g) (string_bytes s))) }
{
    work_all(plan, Method::Plain, &mut Heap::new());
    let word = K::word();
    let counts = plan.counts();
    let mut text = format!(in heap; "{word} {counts}\n")?;
    text.push_str(&table_lines(heap, plan)?)?;
    Ok(text)
}

// The line of a refusal.
fn refused_line(heap: Global, code: Code) -> Result<String, AllocError>
    ensures value { IfOk result (λ s. string_bytes s ≡ refused_line code) }
{
    format!(in heap; "refused {code}\n")
}

// The report of a file that is read into a plan in lent memory.
fn report_in<K: FileKind>(
    heap: Global,
    bytes: &[u8],
    list: &mut [Link<K>],
    costs: &mut [K],
    predecessors: &mut [u16],
) -> Result<String, AllocError>
    ensures value { IfOk result (λ s. ReportIn K.Cost.kind K.Cost.formed K.FileKind.format (length list.old) (length costs.old) (length predecessors.old) bytes.now (string_bytes s)) }
{
    let mut plan = Plan::new(list, costs, predecessors);
    match plan.read(bytes) {
        Ok(()) => worked_text(heap, &mut plan),
        Err(refusal) => refused_line(heap, refusal.code()),
    }
}

// The report of a file of one kind.
fn report_of<K: FileKind>(heap: Global, bytes: &[u8]) -> Result<String, AllocError>
    ensures value { IfOk result (λ s. ReportIn K.Cost.kind K.Cost.formed K.FileKind.format most_links most_cells most_cells bytes.now (string_bytes s)) }
{
    let nowhere = Link {
        from: 0,
        to: 0,
        cost: K::far(),
    };
    let mut list = vec![in heap; nowhere; MOST_LINKS]?;
    let mut costs = vec![in heap; K::far(); MOST_CELLS]?;
    let mut predecessors = vec![in heap; u16::MAX; MOST_CELLS]?;
    report_in(heap, bytes, &mut list, &mut costs, &mut predecessors)
}

// The report of a plan file, of the kind that its kind byte names, else of sum.
pub fn report(heap: Global, bytes: &[u8]) -> Result<String, AllocError>
    ensures value { IfOk result (λ s. Report bytes.now (string_bytes s)) }
{
    match Kind::of_file(bytes) {
        Kind::Split => report_of::<Split>(heap, bytes),
        Kind::Sum => report_of::<Sum>(heap, bytes),
    }
}
