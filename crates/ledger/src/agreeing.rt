// Theorems about what answers are to each other that are right by one ledger.
ghost use Rattle.std.specs.Prelude.{◌≡◌, ◌≢◌, ℕ, ◌≤◌, List, length, take, drop, None, Result, Ok, Err, IsOk, IfErr, slice_index_or};
ghost use Rattle.cost.specs.Kind.{Kind, Same, Below};
ghost use Rattle.cost.specs.Laws.{Laws};
ghost use Rattle.ledger.specs.Agreeing.{Goes};
ghost use Rattle.ledger.specs.Answers.{CostAnswer, WorkAnswer};
ghost use Rattle.ledger.specs.CheckAnswer.{CheckAnswer};
ghost use Rattle.ledger.specs.Ledger.{Ledger, network};
ghost use Rattle.ledger.specs.Refusals.{check_refusal};
ghost use Rattle.ledger.specs.RouteAnswer.{RouteAnswer};
ghost use Rattle.ledger.specs.View.{given};
ghost use Rattle.queue.specs.Meaning.{Meaning, Nobody};
ghost use Rattle.refusal.specs.Code.{code_of};
ghost use Rattle.refusal.specs.declared.Refusal.{Refusal};
ghost use Rattle.routes.specs.Row.{Row};
ghost use Rattle.routes.specs.declared.method.Method.{Method};
ghost use Rattle.routes.specs.declared.method.Method.TheVariants.{Plain, Reuse};

// Costs that are answered for one pair are the same, from whatever rows.
#[tactic(auto, using(crate::proofs::Agreed::costs_are_one))]
pub fn costs_agree<K>()
    ensures same { (m : Kind K) → Laws m → (g : Ledger K) (row other : Row K) (a b : ℕ) (c d : K) → CostAnswer m g row a b (Ok c) → CostAnswer m g other a b (Ok d) → Same m c d }
{}

// A route goes at the cost that is answered. A list with a place for each station is enough where that cost is below FAR, and places that the
// route does not take stay.
#[tactic(auto, using(crate::proofs::Agreed::routes_cost_that))]
pub fn routes_agree<K>()
    ensures goes { (m : Kind K) (g : Ledger K) (row : Row K) (a b : ℕ) (old new : List ℕ) (c : K) (count : ℕ) → CostAnswer m g row a b (Ok c) → RouteAnswer m g row a b old new (Ok count) → Goes m (network g) a b c (take count new) }
    ensures enough { (m : Kind K) → Laws m → (g : Ledger K) (row : Row K) (a b : ℕ) (old new : List ℕ) (c : K) (r : Result ℕ Refusal) → CostAnswer m g row a b (Ok c) → RouteAnswer m g row a b old new r → Below m c m.far → g.stations ≤ length old → IsOk r }
    ensures past { (m : Kind K) (g : Ledger K) (row : Row K) (a b : ℕ) (old new : List ℕ) (count : ℕ) → RouteAnswer m g row a b old new (Ok count) → drop count new ≡ drop count old }
    ensures refused { (m : Kind K) (g : Ledger K) (row : Row K) (a b : ℕ) (old new : List ℕ) (why : Refusal) → RouteAnswer m g row a b old new (Err why) → new ≡ old }
{}

// A supplier's row is accepted that a work would leave, and one that is accepted has the costs that are answered. Where no other refusal fits, the
// one for a faulty row is told.
#[tactic(auto, using(crate::proofs::Agreed::checks_pass_works))]
pub fn checks_agree<K, T>()
    ensures worked { (m : Kind K) (g : Ledger K) (rows : ℕ → Row K) (a : ℕ) (method : Method) (x : T) (queue : Meaning) (costs : List K) (predecessors : List ℕ) (r : Result T Refusal) → WorkAnswer m g rows a method (Ok x) (given m costs predecessors) queue → length costs ≡ g.stations → length predecessors ≡ g.stations → CheckAnswer m g a costs predecessors r → IsOk r }
    ensures costs { (m : Kind K) → Laws m → (g : Ledger K) (row : Row K) (a b : ℕ) (x : T) (costs : List K) (predecessors : List ℕ) (c : K) → CheckAnswer m g a costs predecessors (Ok x) → CostAnswer m g row a b (Ok c) → Same m c (slice_index_or costs b m.far) }
    ensures faulty { (m : Kind K) (g : Ledger K) (a : ℕ) (costs : List K) (predecessors : List ℕ) (r : Result T Refusal) → CheckAnswer m g a costs predecessors r → check_refusal g a costs predecessors ≡ None → IfErr r (λ why. (code_of why).number ≡ 14) }
{}

// However a row is worked, it has the costs that are answered, and nobody waits then; no method takes more stations than plain, none takes no
// station, and but for reuse all take as many.
#[tactic(auto, using(crate::proofs::Agreed::works_alike))]
pub fn works_agree<K, T>()
    ensures costs { (m : Kind K) → Laws m → (g : Ledger K) (rows : ℕ → Row K) (a b : ℕ) (method : Method) (x : T) (row other : Row K) (queue : Meaning) (c : K) → WorkAnswer m g rows a method (Ok x) row queue → CostAnswer m g other a b (Ok c) → Same m c (row.costs b) }
    ensures nobody { (m : Kind K) (g : Ledger K) (rows : ℕ → Row K) (a : ℕ) (method : Method) (x : T) (row : Row K) (queue : Meaning) → WorkAnswer m g rows a method (Ok x) row queue → Nobody queue }
    ensures some_taken { (m : Kind K) (g : Ledger K) (rows : ℕ → Row K) (a : ℕ) (method : Method) (x : T) (row : Row K) (queue : Meaning) → WorkAnswer m g rows a method (Ok x) row queue → 1 ≤ queue.taken }
    ensures plain_takes_most { (m : Kind K) → Laws m → (g : Ledger K) (rows others : ℕ → Row K) (a : ℕ) (method : Method) (x y : T) (row other : Row K) (queue after : Meaning) → WorkAnswer m g rows a Plain (Ok x) row queue → WorkAnswer m g others a method (Ok y) other after → after.taken ≤ queue.taken }
    ensures all_but_reuse { (m : Kind K) → Laws m → (g : Ledger K) (rows others : ℕ → Row K) (a : ℕ) (method : Method) (x y : T) (row other : Row K) (queue after : Meaning) → method ≢ Reuse → WorkAnswer m g rows a Plain (Ok x) row queue → WorkAnswer m g others a method (Ok y) other after → after.taken ≡ queue.taken }
{}
