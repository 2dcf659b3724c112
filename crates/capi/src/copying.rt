// Tables as numbers, in lists of the caller's.
ghost use Rattle.std.specs.Prelude.{◌≡◌, ℕ, ◌*◌, ◌<◌, ◌≤◌, true, length};
ghost use Rattle.ledger.specs.Ledger.{network};
ghost use Rattle.plan.specs.View.{view};
ghost use Rattle.capi.specs.Tabled.{Filled};

use cost::Cost;
use plan::Plan;

// Copies all rows, which are worked, to the start of two lists.
pub(crate) fn copy_table<K: Cost>(plan: &Plan<K>, costs: &mut [u64], predecessors: &mut [u16])
    requires marked { (a : ℕ) → a < (view K.Cost.kind plan.now).ledger.stations → (view K.Cost.kind plan.now).ledger.marked a ≡ true }
    requires costs_fit { (view K.Cost.kind plan.now).ledger.stations * (view K.Cost.kind plan.now).ledger.stations ≤ length costs.old }
    requires predecessors_fit { (view K.Cost.kind plan.now).ledger.stations * (view K.Cost.kind plan.now).ledger.stations ≤ length predecessors.old }
    ensures filled { Filled K.Cost.kind (network (view K.Cost.kind plan.now).ledger) (view K.Cost.kind plan.now).rows costs.old costs.new predecessors.old predecessors.new }
{
    let stations = plan.counts().stations;
    for source in 0..stations {
        let from = source as usize * stations as usize;
        let _ = plan.copy_row(source, &mut costs[from..], &mut predecessors[from..]);
    }
}
