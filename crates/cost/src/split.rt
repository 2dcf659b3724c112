// Split: outlets that share a reference, multiplied along a walk.
ghost use Rattle.cost.specs.Split.{split_kind, split_formed};
ghost use Rattle.cost.specs.SplitRanks.{split_laws, split_strict};
ghost use Rattle.std.proofs.Common.{rules};

use super::kind::Cost;
use refusal::Refusal;

// A number of outlets; the greatest number is FAR, and so is a stored 0, which is no number of outlets: a plain number, as sum's.
#[derive(Clone, Copy)]
pub struct Split {
    pub outlets: u64,
}

impl Cost for Split {
    ghost kind = { split_kind };

    ghost formed = { split_formed };

    ghost lawful = { split_laws };

    ghost strict = { split_strict };

    ghost numbered = { Prim.search rules };

    fn zero() -> Split {
        Split { outlets: 1 }
    }

    fn far() -> Split {
        Split { outlets: u64::MAX }
    }

    fn join(self, other: Split) -> Split {
        Split {
            outlets: self.rank().saturating_mul(other.rank()),
        }
    }

    fn rank(self) -> u64 {
        if self.outlets == 0 {
            u64::MAX
        } else {
            self.outlets
        }
    }

    fn form(number: u64) -> Result<Split, Refusal> {
        if number == 0 {
            return Err(Refusal::NoCost);
        }
        Ok(Split { outlets: number })
    }
}
