// Theorems about the calls that change a plan: by what its code shows, the plan stands after the log with the call at its end, and the call
// answers as the ledger that was reckoned from the log says.
ghost use Rattle.std.specs.Prelude.{ℕ, List, [], ◌∷◌, ◌++◌, Result};
ghost use Rattle.cost.specs.Kind.{Kind};
ghost use Rattle.cost.specs.Laws.{Laws, Strict};
ghost use Rattle.ledger.specs.Answers.{LayAnswer, LiftAnswer, WorkAnswer};
ghost use Rattle.ledger.specs.Effects.{LayEffect, LiftEffect, WorkEffect};
ghost use Rattle.ledger.specs.Ledger.{Ledger};
ghost use Rattle.ledger.specs.Log.{Entry, lay, lift, work, reckon};
ghost use Rattle.ledger.specs.Stands.{Stands};
ghost use Rattle.ledger.specs.View.{View};
ghost use Rattle.queue.specs.Meaning.{Meaning};
ghost use Rattle.refusal.specs.declared.Refusal.{Refusal};
ghost use Rattle.routes.specs.declared.method.Method.{Method};

// Laying a link.
#[tactic(auto, using(crate::proofs::Linked::laid))]
pub fn lay_stands<K, T>()
    ensures stands { (m : Kind K) (start : Ledger K) (log : List (Entry K)) (before after : View K) (a b : ℕ) (c : K) (r : Result T Refusal) → Stands m start log before → LayEffect m before after a b c r → Stands m start (log ++ lay a b c ∷ []) after }
    ensures answer { (m : Kind K) (start : Ledger K) (log : List (Entry K)) (before after : View K) (a b : ℕ) (c : K) (r : Result T Refusal) → Stands m start log before → LayEffect m before after a b c r → LayAnswer m (reckon m start log) a b c r }
{}

// Lifting one.
#[tactic(auto, using(crate::proofs::Linked::lifted))]
pub fn lift_stands<K, T>()
    ensures stands { (m : Kind K) (start : Ledger K) (log : List (Entry K)) (before after : View K) (a b : ℕ) (r : Result T Refusal) → Stands m start log before → LiftEffect m before after a b r → Stands m start (log ++ lift a b ∷ []) after }
    ensures answer { (m : Kind K) (start : Ledger K) (log : List (Entry K)) (before after : View K) (a b : ℕ) (r : Result T Refusal) → Stands m start log before → LiftEffect m before after a b r → LiftAnswer (reckon m start log) a b r }
{}

// Working a row, by any method.
#[tactic(auto, using(crate::proofs::Reworked::reworked))]
pub fn work_stands<K, T>()
    ensures stands { (m : Kind K) → Laws m → Strict m → (start : Ledger K) (log : List (Entry K)) (before after : View K) (a : ℕ) (method : Method) (r : Result T Refusal) (queue : Meaning) → Stands m start log before → WorkEffect m before after a method r queue → Stands m start (log ++ work a method ∷ []) after }
    ensures answer { (m : Kind K) → Laws m → Strict m → (start : Ledger K) (log : List (Entry K)) (before after : View K) (a : ℕ) (method : Method) (r : Result T Refusal) (queue : Meaning) → Stands m start log before → WorkEffect m before after a method r queue → WorkAnswer m (reckon m start log) before.rows a method r (after.rows a) queue }
{}
