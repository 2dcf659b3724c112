// Calls on a plan, and what they answer.
use super::case::{Log, Step};
use super::memory::Memory;
use super::text::{
    NO_ANSWER, NO_STATION, accepted_text, lines_text, log_text, places_text, refused_text,
};
use cost::Sum;
use heap::Heap;
use listing::table_lines;
use plan::Plan;
use queue::Queue;
use replay::replay;
use std::alloc::{AllocError, Global};

// What fills a buffer before it is written to.
const OLD: u8 = 255;

// Lends the memory to a new plan, takes the steps on it, and tells the answer to each.
pub fn answers(alloc: Global, memory: &mut Memory, steps: &[Step]) -> Result<String, AllocError> {
    let mut plan = memory.lend();
    let mut queue = Heap::new();
    let mut texts = Vec::new(alloc);
    for step in steps {
        let text = answer(alloc, &mut plan, &mut queue, step)?;
        texts.push(text).map_err(AllocError::from)?;
    }
    texts.join(alloc, "; ")
}

// Takes a step, and tells its answer.
fn answer(
    alloc: Global,
    plan: &mut Plan<Sum>,
    queue: &mut Heap,
    step: &Step,
) -> Result<String, AllocError> {
    match step {
        Step::Make { stations } => accepted_text(alloc, plan.make(*stations)),
        Step::Read { bytes } => accepted_text(alloc, plan.read(bytes)),
        Step::Write { room } => written(alloc, plan, *room),
        Step::Replay(log) => replayed(alloc, plan, queue, log),
        Step::Counts => plan.counts().to_string(alloc),
        Step::Rows => lines_text(alloc, &table_lines(alloc, plan)?),
    }
}

// Writes the plan into a buffer of so many bytes, and tells what the buffer then holds.
fn written(alloc: Global, plan: &Plan<Sum>, room: usize) -> Result<String, AllocError> {
    let mut buffer = vec![in alloc; OLD; room]?;
    let answer = match plan.write(&mut buffer) {
        Ok(length) => format!(in alloc; "accepted {length}")?,
        Err(refusal) => refused_text(alloc, refusal)?,
    };
    let held = hex::encode(alloc, buffer.as_slice())?;
    format!(in alloc; "{answer} [{held}]")
}

// Replays a log, and tells what the list of answers and the pool then hold.
fn replayed(
    alloc: Global,
    plan: &mut Plan<Sum>,
    queue: &mut Heap,
    log: &Log,
) -> Result<String, AllocError> {
    let mut pool = vec![in alloc; NO_STATION; log.pool]?;
    let mut answers = vec![in alloc; NO_ANSWER; log.answers]?;
    let answer = replay(plan, queue, &log.entries, &mut pool, &mut answers);
    let answer = accepted_text(alloc, answer)?;
    let told = log_text(alloc, &answers)?;
    let held = places_text(alloc, &pool)?;
    format!(in alloc; "{answer} [{told}] [{held}]")
}
