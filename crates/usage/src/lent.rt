// What stands in lent memory when its plan is gone.
ghost use Rattle.std.specs.Prelude.{◌≡◌, OnOk};
ghost use Rattle.planfile.specs.Fronted.{fronted};
ghost use Rattle.planfile.specs.Reading.{links_of};
ghost use Rattle.usage.specs.Lent.{RowHeld};

use cost::Link;
use filekind::FileKind;
use plan::Plan;
use queue::Queue;
use refusal::Refusal;
use routes::Method;

// Reads a plan file into memory that the caller lends, and works a row by plain. The plan is gone then; the caller's memory holds the links of the file,
// and the row, which is right on them. A refusal is that of reading or of working, of which the contract says no more.
pub(crate) fn work_row_of_file<K: FileKind, Q: Queue>(
    bytes: &[u8],
    source: u16,
    list: &mut [Link<K>],
    costs: &mut [K],
    predecessors: &mut [u16],
    queue: &mut Q,
) -> Result<(), Refusal>
    ensures right { OnOk result (RowHeld K.Cost.kind K.Cost.formed bytes.now source costs.new predecessors.new) }
    ensures list { OnOk result (list.new ≡ fronted (links_of K.Cost.kind K.Cost.formed bytes.now) list.old) }
{
    let mut plan = Plan::new(list, costs, predecessors);
    plan.read(bytes)?;
    plan.work(source, Method::Plain, queue)
}
