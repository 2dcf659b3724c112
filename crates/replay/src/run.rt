// A list of entries, run one after the other.
ghost use Rattle.std.specs.Prelude.{◌≡◌, length, drop, nat_le, OnOk, OnErr};
ghost use Rattle.std.specs.List.{sum_by};
ghost use Rattle.refusal.specs.First.{told};
ghost use Rattle.replay.specs.Entries.{places_of};
ghost use Rattle.replay.specs.Pool.{replay_refusal};
ghost use Rattle.replay.specs.Moment.{moment};
ghost use Rattle.replay.specs.Replayed.{Replays};
ghost use Rattle.tables.specs.Lent.{SameMemory};

use super::entry::{Answer, Entry};
use super::step::{answer, wanted};
use cost::Cost;
use plan::Plan;
use queue::Queue;
use refusal::Refusal;

// Runs entries on a plan, in order, and writes their answers at the start of the list. Each route is written into its own part of the pool,
// of as many places as its entry says. Where the pool or the list is too short, nothing is run.
#[tactic(auto, using(std::proofs::lemmas::List::Sums::sum_by_more_le))]
pub fn replay<K: Cost, Q: Queue>(
    plan: &mut Plan<K>,
    queue: &mut Q,
    entries: &[Entry<K>],
    pool: &mut [u16],
    answers: &mut [Answer<K>],
) -> Result<(), Refusal>
    ensures refused { told result ≡ replay_refusal entries.now (length pool.old) (length answers.old) }
    ensures replayed { OnOk result (Replays K.Cost.kind entries.now answers.new pool.old pool.new (moment plan.old (Q.Queue.meaning queue.old)) (moment plan.new (Q.Queue.meaning queue.new)) (length entries.now)) }
    ensures memory { SameMemory plan.old plan.new }
    ensures pool_past { drop (sum_by places_of entries.now) pool.new ≡ drop (sum_by places_of entries.now) pool.old }
    ensures answers_past { drop (length entries.now) answers.new ≡ drop (length entries.now) answers.old }
    ensures same { OnErr result (moment plan.new (Q.Queue.meaning queue.new) ≡ moment plan.old (Q.Queue.meaning queue.old)) }
    ensures same_pool { OnErr result (pool.new ≡ pool.old) }
    ensures same_answers { OnErr result (answers.new ≡ answers.old) }
{
    if answers.len() < entries.len() || !fit(entries, pool.len()) {
        return Err(Refusal::ShortBuffer);
    }
    let mut used = 0;
    for (index, entry) in entries.iter().enumerate() {
        let end = used + wanted(entry);
        answers[index] = answer(plan, queue, entry, &mut pool[used..end]);
        used = end;
    }
    Ok(())
}

// Whether so many places are enough for what all entries want.
fn fit<K: Copy>(entries: &[Entry<K>], places: usize) -> bool
    ensures value { result ≡ nat_le (sum_by places_of entries.now) places }
{
    let mut left = places;
    for entry in entries {
        let wanted = wanted(entry);
        if left < wanted {
            return false;
        }
        left -= wanted;
    }
    true
}
