// What the calls on both campuses answer.
ghost use Rattle.std.specs.Prelude.{◌≡◌, map, replicate, IfOk, IsOk};
ghost use Rattle.cost.specs.Worked.{worked_numbers};
ghost use Rattle.campuses.specs.Asked.{Asked, asked_of_h, asked_of_j, reply, spots};

use super::calls::{calls_on_h, calls_on_j};
use cost::{Cost, Link, Sum, worked_joins};
use plan::Plan;
use queue::Queue;
use refusal::Refusal;
use replay::{Answer, replay};

// The answers to the calls on campus H, what they left in the places for routes, and the answers on campus J; and joins at the ends of the
// ranges of costs.
#[derive(Clone, Copy)]
pub struct Answers {
    pub h: [Answer<Sum>; 17],
    pub routes: [u16; 9],
    pub j: [Answer<Sum>; 14],
    pub joins: [u64; 6],
}

// What stands in a list of answers before they are given.
const NO_ANSWER: Answer<Sum> = Answer::Lay(Ok(()));

// Works both campuses in memory of their own, with a queue of their own: each call replies as it is worked out by hand, each refusal by its code.
pub fn worked_campuses<Q: Queue + Drop>() -> Result<Answers, Refusal>
    ensures accepted { IsOk result }
    ensures h { IfOk result (λ a. map reply a.h ≡ map (λ (x : Asked). x.reply) asked_of_h) }
    ensures routes { IfOk result (λ a. a.routes ≡ spots asked_of_h) }
    ensures j { IfOk result (λ a. map reply a.j ≡ map (λ (x : Asked). x.reply) asked_of_j) }
    ensures joins { IfOk result (λ a. a.joins ≡ worked_numbers) }
{
    let mut queue = Q::new();
    let mut answers = Answers {
        h: [NO_ANSWER; 17],
        routes: [0; 9],
        j: [NO_ANSWER; 14],
        joins: worked_joins(),
    };
    work_h(&mut queue, &mut answers.routes, &mut answers.h)?;
    work_j(&mut queue, &mut answers.j)?;
    Ok(answers)
}

// A link in memory where none is laid yet.
fn no_link() -> Link<Sum> {
    Link {
        from: 0,
        to: 0,
        cost: Sum::far(),
    }
}

// Works campus H.
fn work_h<Q: Queue>(
    queue: &mut Q,
    pool: &mut [u16; 9],
    answers: &mut [Answer<Sum>; 17],
) -> Result<(), Refusal>
    ensures accepted { pool.old ≡ replicate 9 0 → IsOk result }
    ensures answers { pool.old ≡ replicate 9 0 → map reply answers.new ≡ map (λ (x : Asked). x.reply) asked_of_h }
    ensures routes { pool.old ≡ replicate 9 0 → pool.new ≡ spots asked_of_h }
{
    let mut list = [no_link(); 5];
    let mut costs = [Sum::far(); 25];
    let mut predecessors = [u16::MAX; 25];
    let mut plan = Plan::new(&mut list, &mut costs, &mut predecessors);
    plan.make(5)?;
    replay(&mut plan, queue, &calls_on_h(), pool, answers)
}

// Works campus J.
fn work_j<Q: Queue>(queue: &mut Q, answers: &mut [Answer<Sum>; 14]) -> Result<(), Refusal>
    ensures accepted { IsOk result }
    ensures answers { map reply answers.new ≡ map (λ (x : Asked). x.reply) asked_of_j }
{
    let mut list = [no_link(); 10];
    let mut costs = [Sum::far(); 64];
    let mut predecessors = [u16::MAX; 64];
    let mut plan = Plan::new(&mut list, &mut costs, &mut predecessors);
    plan.make(8)?;
    replay(&mut plan, queue, &calls_on_j(), &mut [], answers)
}
