// The ends of the two delivered kinds, as a table.
ghost use Rattle.std.specs.Prelude.{◌≡◌};
ghost use Rattle.cost.specs.Worked.{worked_ranks, worked_numbers};

use super::kind::{Cost, total};
use super::split::Split;
use super::sum::Sum;

// The ranks of six joins at the ends of sum and split, in the order of the table in specs/Worked.
pub fn worked_joins() -> [u64; 6]
    ensures value { result ≡ worked_ranks }
    ensures table { worked_ranks ≡ worked_numbers }
{
    let one = Sum { picoseconds: 1 };
    let two = Split { outlets: 2 };
    let amplifier = Split { outlets: 64 };
    [
        Sum {
            picoseconds: u64::MAX - 2,
        }
        .join(one)
        .rank(),
        Sum {
            picoseconds: u64::MAX - 1,
        }
        .join(one)
        .rank(),
        Split {
            outlets: (1 << 63) - 1,
        }
        .join(two)
        .rank(),
        Split { outlets: 1 << 63 }.join(two).rank(),
        total(&[amplifier; 10]).rank(),
        total(&[amplifier; 11]).rank(),
    ]
}
