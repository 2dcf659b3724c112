// Theorems about rows.
ghost use Rattle.std.specs.Prelude.{◌≡◌, ◌≢◌, ℕ, ◌+◌, ◌-◌, ◌<◌, true, List, length, slice_index};
ghost use Rattle.std.specs.List.{list_any};
ghost use Rattle.cost.specs.Kind.{Kind, Below};
ghost use Rattle.cost.specs.Laws.{Laws, Strict, ZeroLeast};
ghost use Rattle.routes.specs.Network.{Network, leads, Between, OnePerPair, NoneFree};
ghost use Rattle.routes.specs.Walk.{SomeWalk};
ghost use Rattle.routes.specs.Row.{Row, Right};
ghost use Rattle.routes.specs.Fails.{NoneFails};
ghost use Rattle.routes.specs.Chain.{Chain, Route};

// No station of a row fails exactly when the row is right. That a right row passes is shown where a pair of stations has one link in a direction; the
// other way round, by the strict laws, where no link costs zero.
#[tactic(auto, using(crate::proofs::Checked::checked))]
pub fn right_rows_pass<K>()
    ensures passes { (m : Kind K) → Laws m → ZeroLeast m → (net : Network K) (A : ℕ) (row : Row K) → Between net → OnePerPair net → A < net.stations → Right m net A row → NoneFails m net A row }
    ensures right { (m : Kind K) → Laws m → Strict m → (net : Network K) (A : ℕ) (row : Row K) → Between net → NoneFree m net → A < net.stations → NoneFails m net A row → Right m net A row }
{}

// In a right row each chain of predecessors from the source is a walk of just the cost that the row says, past no station twice, and a station has one at
// most. By the strict laws, each below FAR has one where no link costs zero.
#[tactic(auto, using(crate::proofs::RightChains::by_right))]
pub fn chains_are_routes<K>()
    ensures route { (m : Kind K) → Laws m → ZeroLeast m → (net : Network K) (A B : ℕ) (row : Row K) (xs : List ℕ) → Between net → A < net.stations → B < net.stations → Right m net A row → Chain row A B xs → Route m net A row B xs }
    ensures one { (m : Kind K) (net : Network K) (A B : ℕ) (row : Row K) (xs ys : List ℕ) → A < net.stations → Right m net A row → Chain row A B xs → Chain row A B ys → xs ≡ ys }
    ensures reach { (m : Kind K) → Laws m → Strict m → (net : Network K) (A B : ℕ) (row : Row K) → Between net → NoneFree m net → A < net.stations → B < net.stations → Right m net A row → Below m (row.costs B) m.far → (xs : List ℕ) × Chain row A B xs × Route m net A row B xs }
{}

// A route is a walk of just the cost that the row says: it begins and ends where it should, a link leads to each station from the one before it, and no
// station stands at two places.
#[tactic(auto, using(crate::proofs::RoutePlaces::by_route))]
pub fn routes_are_walks<K>()
    ensures walk { (m : Kind K) (net : Network K) (A B : ℕ) (row : Row K) (xs : List ℕ) → Route m net A row B xs → SomeWalk m net A B (row.costs B) }
    ensures begins { (m : Kind K) (net : Network K) (A B : ℕ) (row : Row K) (xs : List ℕ) → Route m net A row B xs → slice_index xs 0 ≡ A }
    ensures ends { (m : Kind K) (net : Network K) (A B : ℕ) (row : Row K) (xs : List ℕ) → Route m net A row B xs → slice_index xs (length xs - 1) ≡ B }
    ensures linked { (m : Kind K) (net : Network K) (A B : ℕ) (row : Row K) (xs : List ℕ) → Route m net A row B xs → (i : ℕ) → i + 1 < length xs → list_any (leads (slice_index xs i) (slice_index xs (i + 1))) net.links ≡ true }
    ensures apart { (m : Kind K) (net : Network K) (A B : ℕ) (row : Row K) (xs : List ℕ) → Route m net A row B xs → (i j : ℕ) → i < j → j < length xs → slice_index xs i ≢ slice_index xs j }
{}
