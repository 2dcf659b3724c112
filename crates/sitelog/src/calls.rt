// Calls on a plan, each run as a log of one entry.
use super::command::Call;
use super::fields::QueueName;
use super::reply::Reply;
use super::stored::StoredKind;
use heap::Heap;
use listing::CostWord;
use plan::Plan;
use queue::Queue;
use refusal::Refusal;
use replay::{Answer, Entry, replay};
use shelf::Shelf;
use std::alloc::{AllocError, Global};

// One queue of each sort.
#[derive(Drop)]
pub struct Queues {
    pub heap: Heap,
    pub shelf: Shelf,
}

impl Queues {
    // New ones.
    pub fn new() -> Queues {
        Queues {
            heap: Heap::new(),
            shelf: Shelf::new(),
        }
    }
}

impl Call {
    // Runs the call, and answers it.
    pub fn answer<K: StoredKind>(
        &self,
        alloc: Global,
        plan: &mut Plan<K>,
        queues: &mut Queues,
    ) -> Result<Reply<K>, AllocError> {
        let costs = self.stored_costs(alloc)?;
        let entry = self.entry(&costs, plan.counts().stations);
        match self.queue() {
            QueueName::Heap => answer_entry(alloc, plan, &mut queues.heap, entry),
            QueueName::Shelf => answer_entry(alloc, plan, &mut queues.shelf, entry),
        }
    }

    // The queue that a row is worked with; for all others any will do.
    fn queue(&self) -> QueueName {
        match self {
            Call::Work { queue, .. } => *queue,
            _ => QueueName::Heap,
        }
    }

    // The costs of a row that is tested.
    fn stored_costs<K: StoredKind>(&self, alloc: Global) -> Result<Vec<K>, AllocError> {
        let numbers: &[u64] = match self {
            Call::Check { costs, .. } => costs,
            _ => &[],
        };
        numbers
            .iter()
            .map(|number| K::stored(*number))
            .collect(alloc)
    }

    // The entry of a log on a plan of so many stations.
    fn entry<'a, K: StoredKind>(&'a self, row: &'a [K], stations: u16) -> Entry<'a, K> {
        match self {
            Call::Lay { from, to, cost } => Entry::Lay {
                from: *from,
                to: *to,
                cost: K::stored(*cost),
            },
            Call::Lift { from, to } => Entry::Lift {
                from: *from,
                to: *to,
            },
            Call::Work { source, method, .. } => Entry::Work {
                source: *source,
                method: *method,
            },
            Call::Cost { from, to } => Entry::Cost {
                from: *from,
                to: *to,
            },
            Call::Route { from, to, places } => Entry::Route {
                from: *from,
                to: *to,
                places: places.unwrap_or(stations),
            },
            Call::Check {
                source,
                predecessors,
                ..
            } => Entry::Check {
                source: *source,
                costs: row,
                predecessors,
            },
        }
    }
}

// Runs an entry, and answers it.
fn answer_entry<K: StoredKind, Q: Queue>(
    alloc: Global,
    plan: &mut Plan<K>,
    queue: &mut Q,
    entry: Entry<K>,
) -> Result<Reply<K>, AllocError> {
    let places = match entry {
        Entry::Route { places, .. } => places as usize,
        _ => 0,
    };
    let mut pool = vec![in alloc; 0u16; places]?;
    let log = vec![in alloc; entry; 1]?;
    let mut answers = vec![in alloc; Answer::Lay(Err(Refusal::ShortBuffer)); 1]?;
    match replay(plan, queue, &log, &mut pool, &mut answers) {
        Ok(()) => Ok(reply(answers[0], pool)),
        Err(refusal) => Ok(Reply::Refused(refusal)),
    }
}

// The reply to an entry by its answer, and by the stations that were written.
fn reply<K: StoredKind>(answer: Answer<K>, mut stations: Vec<u16>) -> Reply<K> {
    match answer {
        Answer::Lay(Ok(())) | Answer::Lift(Ok(())) => Reply::Accepted,
        Answer::Work(Ok(taken)) => Reply::Taken(taken),
        Answer::Cost(Ok(cost)) => Reply::Cost(CostWord(cost)),
        Answer::Route(Ok(count)) => {
            stations.truncate(count);
            Reply::Route(stations)
        }
        Answer::Check(Ok(())) => Reply::Passed,
        Answer::Lay(Err(refusal))
        | Answer::Lift(Err(refusal))
        | Answer::Work(Err(refusal))
        | Answer::Cost(Err(refusal))
        | Answer::Route(Err(refusal))
        | Answer::Check(Err(refusal)) => Reply::Refused(refusal),
    }
}
