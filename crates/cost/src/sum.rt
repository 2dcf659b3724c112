// Sum: picoseconds of time error, added along a walk.
ghost use Rattle.cost.specs.Sum.{sum_kind, sum_formed};
ghost use Rattle.std.proofs.Common.{rules};

use super::kind::Cost;
use refusal::Refusal;

// A number of picoseconds; the greatest number is FAR, and no `Option`, since costs are plain numbers in memory that is lent.
#[derive(Clone, Copy)]
pub struct Sum {
    pub picoseconds: u64,
}

impl Cost for Sum {
    ghost kind = { sum_kind };

    ghost formed = { sum_formed };

    ghost lawful = { Prim.search rules };

    ghost strict = { Prim.search rules };

    ghost numbered = { Prim.search rules };

    fn zero() -> Sum {
        Sum { picoseconds: 0 }
    }

    fn far() -> Sum {
        Sum {
            picoseconds: u64::MAX,
        }
    }

    fn join(self, other: Sum) -> Sum {
        Sum {
            picoseconds: self.rank().saturating_add(other.rank()),
        }
    }

    fn rank(self) -> u64 {
        self.picoseconds
    }

    fn form(number: u64) -> Result<Sum, Refusal> {
        Ok(Sum {
            picoseconds: number,
        })
    }
}
