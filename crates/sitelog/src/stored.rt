// Costs as they are stored.
use cost::{Split, Sum};
use filekind::FileKind;

// A file kind whose costs are stored as numbers.
pub trait StoredKind: FileKind {
    // The cost that is stored as this number.
    fn stored(number: u64) -> Self;
}

impl StoredKind for Sum {
    fn stored(number: u64) -> Sum {
        Sum {
            picoseconds: number,
        }
    }
}

impl StoredKind for Split {
    fn stored(number: u64) -> Split {
        Split { outlets: number }
    }
}
