// File kinds: a cost kind with what a plan file has of it, a kind byte, a word and a range of link costs.
ghost use Rattle.std.specs.Prelude.{◌≡◌};
ghost use Rattle.filekind.specs.Format.{Format, Ranged, sum_format, split_format};

use super::range::LinkRange;
use cost::{Cost, Split, Sum};

pub trait FileKind: Cost {
    const BYTE: u8;

    const RANGE: LinkRange;

    // Byte, word and range, as the clauses name them.
    ghost format: { Format };

    // The byte that names the kind in a file's header.
    fn kind_byte() -> u8
        ensures value { result ≡ format.byte };

    // The word that names the kind in what programs print.
    fn word() -> &'static str
        ensures value { result.now ≡ format.word };

    // The range of link costs: it leaves out zero and FAR, and each number in it forms a cost.
    fn link_range() -> LinkRange
        ensures value { Ranged Self.Cost.kind Self.Cost.formed format result };
}

// The two impls differ in constants. With the functions' bodies in the trait it would need laws, and laws stay in the cost trait.
impl FileKind for Sum {
    const BYTE: u8 = 0;

    const RANGE: LinkRange = LinkRange {
        low: 1,
        high: 1_000_000_000,
    };

    ghost format = { sum_format };

    fn kind_byte() -> u8 {
        Self::BYTE
    }

    fn word() -> &'static str {
        "sum"
    }

    fn link_range() -> LinkRange {
        Self::RANGE
    }
}

impl FileKind for Split {
    const BYTE: u8 = 1;

    const RANGE: LinkRange = LinkRange { low: 2, high: 64 };

    ghost format = { split_format };

    fn kind_byte() -> u8 {
        Self::BYTE
    }

    fn word() -> &'static str {
        "split"
    }

    fn link_range() -> LinkRange {
        Self::RANGE
    }
}
