// Theorems about walks.
ghost use Rattle.std.specs.Prelude.{ℕ, ◌<◌};
ghost use Rattle.cost.specs.Kind.{Kind, Same};
ghost use Rattle.cost.specs.Laws.{Laws, Strict, ZeroLeast};
ghost use Rattle.routes.specs.Network.{Network};
ghost use Rattle.routes.specs.Least.{Least};
ghost use Rattle.routes.specs.Row.{Row, Right};

// Where the strict laws hold, zero is at most every cost.
#[tactic(auto, using(crate::proofs::Costs::zero_least_from_strict))]
pub fn zero_is_least<K>()
    ensures least { (m : Kind K) → Laws m → Strict m → ZeroLeast m }
{}

// Two least costs of one pair are the same cost, and so two right rows of one source agree in every cost.
#[tactic(auto, using(crate::proofs::OneLeast::one_cost))]
pub fn least_costs_are_one<K>()
    ensures of_pair { (m : Kind K) → Laws m → (net : Network K) (A B : ℕ) (a b : K) → Least m net A B a → Least m net A B b → Same m a b }
    ensures of_rows { (m : Kind K) → Laws m → (net : Network K) (A B : ℕ) (row other : Row K) → Right m net A row → Right m net A other → B < net.stations → Same m (row.costs B) (other.costs B) }
{}
