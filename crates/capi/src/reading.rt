// Reading a file into a plan, for a caller who lends lists of their own.
ghost use Rattle.std.specs.Prelude.{◌≡◌, ◌*◌, ◌≤◌, [], length, min, OnErr, OnOk};
ghost use Rattle.refusal.specs.First.{told};
ghost use Rattle.planfile.specs.Reading.{links_of, stations_of};
ghost use Rattle.ledger.specs.Stands.{Stands};
ghost use Rattle.tables.specs.Made.{made};
ghost use Rattle.tables.specs.Read.{file_refusal};
ghost use Rattle.plan.specs.View.{view};
ghost use Rattle.capi.specs.Sound.{most_links};

use filekind::FileKind;
use plan::Plan;
use refusal::Refusal;

// Commissions a plan by a file. Its tables have as many cells as the caller's lists have places, or as the largest plan needs; so a file is refused as
// it would be beside those lists.
pub(crate) fn read_plan<K: FileKind>(
    plan: &mut Plan<K>,
    file: &[u8],
    costs: usize,
    predecessors: usize,
) -> Result<(), Refusal>
    requires list { length plan.old.list.now ≡ most_links }
    requires cells { length plan.old.costs.now ≡ min costs 65536 }
    requires befores { length plan.old.predecessors.now ≡ min predecessors 65536 }
    ensures refused { told result ≡ file_refusal K.FileKind.format most_links costs predecessors file.now }
    ensures ledger { OnOk result ((view K.Cost.kind plan.new).ledger ≡ made (stations_of file.now) most_links (links_of K.Cost.kind K.Cost.formed file.now)) }
    ensures stands { OnOk result (Stands K.Cost.kind (made (stations_of file.now) most_links (links_of K.Cost.kind K.Cost.formed file.now)) [] (view K.Cost.kind plan.new)) }
    ensures costs_fit { OnOk result ((view K.Cost.kind plan.new).ledger.stations * (view K.Cost.kind plan.new).ledger.stations ≤ costs) }
    ensures predecessors_fit { OnOk result ((view K.Cost.kind plan.new).ledger.stations * (view K.Cost.kind plan.new).ledger.stations ≤ predecessors) }
{
    plan.read(file)
}
