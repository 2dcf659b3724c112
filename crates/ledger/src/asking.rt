// Theorems about the calls that leave a plan as it is: it stands after the log with the call at its end, and by what its code shows the
// call answers as the ledger that was reckoned from the log says.
ghost use Rattle.std.specs.Prelude.{ℕ, List, [], ◌∷◌, ◌++◌, Result};
ghost use Rattle.cost.specs.Kind.{Kind};
ghost use Rattle.cost.specs.Laws.{Laws, Strict};
ghost use Rattle.ledger.specs.Answers.{CostAnswer};
ghost use Rattle.ledger.specs.CheckAnswer.{CheckAnswer};
ghost use Rattle.ledger.specs.Effects.{CostEffect, RouteEffect, CheckEffect};
ghost use Rattle.ledger.specs.Ledger.{Ledger};
ghost use Rattle.ledger.specs.Log.{Entry, cost, route, check, reckon};
ghost use Rattle.ledger.specs.RouteAnswer.{RouteAnswer};
ghost use Rattle.ledger.specs.Stands.{Stands};
ghost use Rattle.ledger.specs.View.{View};
ghost use Rattle.refusal.specs.declared.Refusal.{Refusal};

// Asking for a cost.
#[tactic(auto, using(crate::proofs::Asked::cost_asked))]
pub fn cost_stands<K>()
    ensures stands { (m : Kind K) (start : Ledger K) (log : List (Entry K)) (v : View K) (a b : ℕ) → Stands m start log v → Stands m start (log ++ cost a b ∷ []) v }
    ensures answer { (m : Kind K) (start : Ledger K) (log : List (Entry K)) (v : View K) (a b : ℕ) (r : Result K Refusal) → Stands m start log v → CostEffect v a b r → CostAnswer m (reckon m start log) (v.rows a) a b r }
{}

// Asking for a route, which is written at the start of a list of the caller's.
#[tactic(auto, using(crate::proofs::Asked::route_asked))]
pub fn route_stands<K>()
    ensures stands { (m : Kind K) (start : Ledger K) (log : List (Entry K)) (v : View K) (a b places : ℕ) → Stands m start log v → Stands m start (log ++ route a b places ∷ []) v }
    ensures answer { (m : Kind K) → Laws m → Strict m → (start : Ledger K) (log : List (Entry K)) (v : View K) (a b : ℕ) (old new : List ℕ) (r : Result ℕ Refusal) → Stands m start log v → RouteEffect m v a b old new r → RouteAnswer m (reckon m start log) (v.rows a) a b old new r }
{}

// Testing a supplier's row.
#[tactic(auto, using(crate::proofs::Asked::row_checked))]
pub fn check_stands<K, T>()
    ensures stands { (m : Kind K) (start : Ledger K) (log : List (Entry K)) (v : View K) (a : ℕ) (costs : List K) (predecessors : List ℕ) → Stands m start log v → Stands m start (log ++ check a costs predecessors ∷ []) v }
    ensures answer { (m : Kind K) → Laws m → Strict m → (start : Ledger K) (log : List (Entry K)) (v : View K) (a : ℕ) (costs : List K) (predecessors : List ℕ) (r : Result T Refusal) → Stands m start log v → CheckEffect m v.ledger a costs predecessors r → CheckAnswer m (reckon m start log) a costs predecessors r }
{}
