// The record layer: a record's link, if the plan may have it.
ghost use Rattle.std.specs.Prelude.{◌≡◌, ◌+◌, ◌*◌, true, false, IfOk, OnOk, slice_index_or, slice_set};
ghost use Rattle.refusal.specs.First.{fault_told};
ghost use Rattle.planfile.specs.Faults.{fault};
ghost use Rattle.planfile.specs.Records.{link_of};

use super::field::CostField;
use super::fields::Fields;
use super::pairs::Pairs;
use cost::Link;
use filekind::FileKind;
use refusal::RecordFault;

// The link of record `index`, after the pairs already seen.
pub(crate) fn read_link<K: FileKind>(
    field: &CostField<K>,
    index: u16,
    fields: Fields,
    seen: &mut Pairs,
) -> Result<Link<K>, RecordFault>
    ensures refused { fault_told result ≡ fault K.FileKind.format seen.old.stations index (slice_index_or seen.old.seen (fields.from * 256 + fields.to) false) fields }
    ensures value { IfOk result (λ l. l ≡ link_of K.Cost.kind K.Cost.formed fields) }
    ensures stations { OnOk result (seen.new.stations ≡ seen.old.stations) }
    ensures after { OnOk result (seen.new.seen ≡ slice_set seen.old.seen (fields.from * 256 + fields.to) true) }
{
    let Fields { from, to, number } = fields;
    let cost = field.cost(index, number)?;
    if !seen.has_station(from) || !seen.has_station(to) {
        return Err(RecordFault::NoStation { index });
    }
    if from == to {
        return Err(RecordFault::SelfLink { index });
    }
    if !seen.insert(from, to) {
        return Err(RecordFault::Repeated { index });
    }
    Ok(Link { from, to, cost })
}
