// Entries of a site log, and their answers.
use refusal::Refusal;
use routes::Method;

// A call on a plan, with its arguments; a route is written into so many places.
#[derive(Clone, Copy)]
pub enum Entry<'a, K> {
    Lay {
        from: u16,
        to: u16,
        cost: K,
    },
    Lift {
        from: u16,
        to: u16,
    },
    Work {
        source: u16,
        method: Method,
    },
    Cost {
        from: u16,
        to: u16,
    },
    Route {
        from: u16,
        to: u16,
        places: u16,
    },
    Check {
        source: u16,
        costs: &'a [K],
        predecessors: &'a [u16],
    },
}

// What a call answers: a work the number taken, a route how many stations it has.
#[derive(Clone, Copy)]
pub enum Answer<K> {
    Lay(Result<(), Refusal>),
    Lift(Result<(), Refusal>),
    Work(Result<u16, Refusal>),
    Cost(Result<K, Refusal>),
    Route(Result<usize, Refusal>),
    Check(Result<(), Refusal>),
}
