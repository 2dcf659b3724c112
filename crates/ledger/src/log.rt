// Theorems about the site log.
ghost use Rattle.std.specs.Prelude.{◌≡◌, ℕ, true, List, []};
ghost use Rattle.cost.specs.Kind.{Kind};
ghost use Rattle.ledger.specs.Starts.{Starts};
ghost use Rattle.ledger.specs.Effects.{AllCleared};
ghost use Rattle.ledger.specs.Ledger.{Ledger};
ghost use Rattle.ledger.specs.Log.{Entry, reckon};
ghost use Rattle.ledger.specs.Marks.{WorkedSince};
ghost use Rattle.ledger.specs.Stands.{Stands};
ghost use Rattle.ledger.specs.View.{View};

// A plan at the start of its log, with all rows cleared, stands after the empty log.
#[tactic(auto, using(crate::proofs::Stood::start_stands))]
pub fn start_stands<K>()
    ensures stands { (m : Kind K) (start : Ledger K) (v : View K) → Starts m start → v.ledger ≡ start → AllCleared m v → Stands m start [] v }
{}

// A row is marked exactly when it was worked since a link was last laid or lifted.
#[tactic(auto, using(crate::proofs::Since::tells_of_work))]
pub fn marks_tell_of_work<K>()
    ensures worked { (m : Kind K) (start : Ledger K) (log : List (Entry K)) (a : ℕ) → Starts m start → (reckon m start log).marked a ≡ true → WorkedSince m start log a }
    ensures marked { (m : Kind K) (start : Ledger K) (log : List (Entry K)) (a : ℕ) → WorkedSince m start log a → (reckon m start log).marked a ≡ true }
{}
