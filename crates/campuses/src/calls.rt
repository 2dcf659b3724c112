// The calls on the campuses.
ghost use Rattle.std.specs.Prelude.{◌≡◌, map};
ghost use Rattle.cost.specs.Sum.{sum_cost};
ghost use Rattle.ledger.specs.Log.{lay as laid, work as worked, cost as costed, route as routed};
ghost use Rattle.replay.specs.Entries.{meant};
ghost use Rattle.campuses.specs.Asked.{Asked, asked_of_h, asked_of_j};

use cost::Sum;
use replay::Entry;
use routes::Method;

// A supplier's row 0 for campus H.
const SUPPLIED_COSTS: [Sum; 5] = [
    Sum { picoseconds: 0 },
    Sum { picoseconds: 3 },
    Sum { picoseconds: 1 },
    Sum { picoseconds: 9 },
    Sum {
        picoseconds: u64::MAX,
    },
];

const SUPPLIED_PREDECESSORS: [u16; 5] = [u16::MAX, 2, 0, 2, u16::MAX];

// Lays a link.
fn lay(from: u16, to: u16, picoseconds: u64) -> Entry<'static, Sum>
    ensures value { meant result ≡ laid from to (sum_cost picoseconds) }
{
    Entry::Lay {
        from,
        to,
        cost: Sum { picoseconds },
    }
}

// Works a row.
fn work(source: u16, method: Method) -> Entry<'static, Sum>
    ensures value { meant result ≡ worked source method }
{
    Entry::Work { source, method }
}

// Asks for a cost.
fn cost(from: u16, to: u16) -> Entry<'static, Sum>
    ensures value { meant result ≡ costed from to }
{
    Entry::Cost { from, to }
}

// Asks for a route.
fn route(from: u16, to: u16, places: u16) -> Entry<'static, Sum>
    ensures value { meant result ≡ routed from to places }
{
    Entry::Route { from, to, places }
}

// The calls on campus H, with a supplier's row.
pub(crate) fn calls_on_h() -> [Entry<'static, Sum>; 17]
    ensures calls { map meant result ≡ map (λ (a : Asked). a.call) asked_of_h }
{
    [
        lay(0, 1, 4),
        lay(0, 2, 1),
        lay(2, 1, 2),
        lay(1, 3, 5),
        lay(2, 3, 8),
        work(0, Method::Plain),
        work(4, Method::Reuse),
        cost(0, 0),
        cost(0, 1),
        cost(0, 2),
        cost(0, 3),
        cost(0, 4),
        route(0, 3, 5),
        route(0, 3, 3),
        cost(4, 4),
        route(4, 4, 1),
        Entry::Check {
            source: 0,
            costs: &SUPPLIED_COSTS,
            predecessors: &SUPPLIED_PREDECESSORS,
        },
    ]
}

// The calls on campus J: rows 1 and 2 are there to be read when row 0 is worked.
pub(crate) fn calls_on_j() -> [Entry<'static, Sum>; 14]
    ensures calls { map meant result ≡ map (λ (a : Asked). a.call) asked_of_j }
{
    [
        lay(0, 1, 1),
        lay(0, 2, 1),
        lay(1, 6, 1),
        lay(6, 3, 1),
        lay(2, 7, 1),
        lay(7, 4, 1),
        lay(3, 5, 1),
        lay(4, 5, 1),
        lay(2, 3, 2),
        lay(1, 4, 2),
        work(1, Method::Plain),
        work(2, Method::Plain),
        work(0, Method::Prune),
        cost(0, 5),
    ]
}
