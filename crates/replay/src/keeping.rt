// Theorems about what a replay leaves as it is.
ghost use Rattle.std.specs.Prelude.{◌≡◌, ℕ, List, Some};
ghost use Rattle.std.specs.List.{slice_get};
ghost use Rattle.cost.specs.Kind.{Kind};
ghost use Rattle.ledger.specs.Ledger.{Ledger};
ghost use Rattle.ledger.specs.Log.{Entry};
ghost use Rattle.replay.specs.Keeping.{Asks, Past, Unqueued};
ghost use Rattle.replay.specs.Moment.{Moment};
ghost use Rattle.replay.specs.Replayed.{Replayed};
ghost use Rattle.replay.specs.declared.entry.Answer.{Answer};
ghost use Rattle.replay.specs.declared.entry.Entry.{Entry as Given};

// No replay changes how many stations or places there are, or a cell past the rows; one that works no row changes nothing of the queue, and one
// that only asks and tests nothing of the plan either.
#[tactic(auto, using(crate::proofs::Kept::kept))]
pub fn replays_keep<K>()
    ensures asking { (m : Kind K) (start : Ledger K) (log : List (Entry K)) (es : List (Given K)) (answers : List (Answer K)) (old new : List ℕ) (before after : Moment K) (n : ℕ) → ((i : ℕ) (e : Given K) → slice_get es i ≡ Some e → Asks e) → Replayed m start log es answers old new before after n → after ≡ before }
    ensures queue { (m : Kind K) (start : Ledger K) (log : List (Entry K)) (es : List (Given K)) (answers : List (Answer K)) (old new : List ℕ) (before after : Moment K) (n : ℕ) → ((i : ℕ) (e : Given K) → slice_get es i ≡ Some e → Unqueued e) → Replayed m start log es answers old new before after n → after.queue ≡ before.queue }
    ensures past { (m : Kind K) (start : Ledger K) (log : List (Entry K)) (es : List (Given K)) (answers : List (Answer K)) (old new : List ℕ) (before after : Moment K) (n : ℕ) → Replayed m start log es answers old new before after n → Past before.plan after.plan }
{}
