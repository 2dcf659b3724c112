// The field layer: the cost of a link from its number.
ghost use Rattle.std.specs.Prelude.{◌≡◌, ◌<◌, ◌≤◌, map, length, IfOk, IfSome, if◌then◌else◌, Some, None};
ghost use Rattle.std.specs.List.{position_from};
ghost use Rattle.std.specs.Result.{result_err};
ghost use Rattle.std.specs.Option.{unwrap_or};
ghost use Rattle.filekind.specs.Format.{Ranged};
ghost use Rattle.filekind.specs.Outside.{outside};
ghost use Rattle.refusal.specs.First.{field_told};
ghost use Rattle.planfile.specs.Records.{fields_of};
ghost use Rattle.planfile.specs.Writing.{first_outside};

use super::fields::Fields;
use cost::Link;
use filekind::{FileKind, LinkRange};
use refusal::FieldFault;
use std::marker::PhantomData;

// The field of a link's cost in a file of kind K: the link range, with what the kind promises of it.
#[derive(Drop)]
pub(crate) struct CostField<K: FileKind> {
    range: LinkRange,
    kind: PhantomData<K>,
    ghost ranged: { Ranged K.Cost.kind K.Cost.formed K.FileKind.format range },
}

impl<K: FileKind> CostField<K> {
    // The field as the kind has it.
    pub(crate) fn new() -> CostField<K> {
        CostField {
            range: K::link_range(),
            kind: PhantomData,
        }
    }

    // Whether a number is outside the link range.
    pub(crate) fn excludes(&self, number: u64) -> bool
        ensures value { result ≡ outside K.FileKind.format.low K.FileKind.format.high number }
    {
        self.range.excludes(number)
    }

    // The cost that a number of the link range forms; a number outside it is a fault of the record.
    pub(crate) fn cost(&self, index: u16, number: u64) -> Result<K, FieldFault>
        ensures refused { result_err result ≡ (if outside K.FileKind.format.low K.FileKind.format.high number then Some (record { index = index }) else None) }
        ensures value { IfOk result (λ c. c ≡ unwrap_or (K.Cost.formed number) K.Cost.kind.far) }
    {
        if self.excludes(number) {
            return Err(FieldFault { index });
        }
        K::form(number).map_err(|_| FieldFault { index })
    }

    // The first link whose cost is outside the link range is a fault of its record. A `match` reads plainer here than `map_or`.
    pub(crate) fn check_all(&self, links: &[Link<K>]) -> Result<(), FieldFault>
        requires { length links.now ≤ 4096 }
        ensures refused { field_told result ≡ first_outside K.FileKind.format 0 (map (fields_of K.Cost.kind) links.now) }
    {
        match self.first_outside(links) {
            Some(index) => Err(FieldFault {
                index: index as u16,
            }),
            None => Ok(()),
        }
    }

    // The place of the first link whose cost is outside the link range.
    fn first_outside(&self, links: &[Link<K>]) -> Option<usize>
        ensures first { result ≡ position_from (λ x. outside K.FileKind.format.low K.FileKind.format.high x.number) 0 (map (fields_of K.Cost.kind) links.now) }
        ensures bound { IfSome result (λ k. k < length links.now) }
    {
        links
            .iter()
            .map(|link| Fields::from(*link))
            .position(|fields| self.excludes(fields.number))
    }
}
