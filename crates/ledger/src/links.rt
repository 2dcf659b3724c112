// Theorems about the links of a ledger.
ghost use Rattle.std.specs.Prelude.{◌≡◌, ℕ, None};
ghost use Rattle.cost.specs.Kind.{Kind};
ghost use Rattle.ledger.specs.After.{after_lay, after_lift};
ghost use Rattle.ledger.specs.Fair.{Fair};
ghost use Rattle.ledger.specs.Ledger.{Ledger, network};
ghost use Rattle.ledger.specs.Refusals.{lay_refusal};

// Links stay as a plan has them when one is laid that is not refused, and when one is lifted.
#[tactic(auto, using(crate::proofs::FairKept::kept_fair))]
pub fn links_stay_fair<K>()
    ensures laid { (m : Kind K) (g : Ledger K) (a b : ℕ) (c : K) → Fair m (network g) → lay_refusal m g a b c ≡ None → Fair m (network (after_lay g a b c)) }
    ensures lifted { (m : Kind K) (g : Ledger K) (a b : ℕ) → Fair m (network g) → Fair m (network (after_lift g a b)) }
{}
