// Theorems about runs of the methods.
ghost use Rattle.std.specs.Prelude.{◌≡◌, ℕ, ◌<◌, ◌≤◌, List, ◌++◌, length, ◌≢◌};
ghost use Rattle.cost.specs.Kind.{Kind, Below};
ghost use Rattle.cost.specs.Laws.{Laws, Strict, ZeroLeast};
ghost use Rattle.queue.specs.Meaning.{most_stations};
ghost use Rattle.routes.specs.Row.{Right};
ghost use Rattle.routes.specs.NoneTwice.{NoneTwice};
ghost use Rattle.routes.specs.Chain.{Chain, Route};
ghost use Rattle.routes.specs.Task.{Task, Workable, RowsRight};
ghost use Rattle.routes.specs.State.{State};
ghost use Rattle.routes.specs.Runs.{Reached, Run, below_far};
ghost use Rattle.routes.specs.declared.method.Method.TheVariants.{Plain, Reuse, Prune};

// Every run ends, whatever the rows that it reads: no station is taken twice, and what was begun can be brought to its end.
#[tactic(auto, using(crate::proofs::Takings::ends))]
pub fn runs_end<K>()
    ensures none_twice { (m : Kind K) → Laws m → ZeroLeast m → (task : Task K) (xs : List ℕ) (s : State K) → Workable task → Reached m task xs s → NoneTwice xs }
    ensures at_most { (m : Kind K) → Laws m → ZeroLeast m → (task : Task K) (xs : List ℕ) (s : State K) → Workable task → Reached m task xs s → length xs ≤ task.network.stations }
    ensures ends { (m : Kind K) → Laws m → ZeroLeast m → (task : Task K) (xs : List ℕ) (s : State K) → Workable task → Reached m task xs s → (ys : List ℕ) × (e : State K) × Run m task (xs ++ ys) e }
{}

// Where a queue can hold the stations it counts what a run takes: after plain and prune as many as have a cost below FAR, after reuse at least one and at
// most as many.
#[tactic(auto, using(crate::proofs::Takings::counts))]
pub fn runs_count<K>()
    ensures taken { (m : Kind K) → Laws m → ZeroLeast m → (task : Task K) (xs : List ℕ) (s : State K) → Workable task → task.network.stations ≤ most_stations → Reached m task xs s → s.queue.taken ≡ length xs }
    ensures some { (m : Kind K) → Laws m → ZeroLeast m → (task : Task K) (xs : List ℕ) (s : State K) → Workable task → task.network.stations ≤ most_stations → Run m task xs s → 1 ≤ s.queue.taken }
    ensures at_most { (m : Kind K) → Laws m → ZeroLeast m → (task : Task K) (xs : List ℕ) (s : State K) → Workable task → task.network.stations ≤ most_stations → Run m task xs s → s.queue.taken ≤ below_far m task.network.stations s.row }
    ensures all { (m : Kind K) → Laws m → ZeroLeast m → (task : Task K) (xs : List ℕ) (s : State K) → Workable task → task.network.stations ≤ most_stations → (task.method ≢ Reuse) → Run m task xs s → s.queue.taken ≡ below_far m task.network.stations s.row }
{}

// Every run of every method ends in a right row, if the worked rows of the stations that it takes are right. Only prune uses the strict laws.
#[tactic(auto, using(crate::proofs::Ends::right_from_rows))]
pub fn runs_end_right<K>()
    ensures right { (m : Kind K) → Laws m → ZeroLeast m → (task : Task K) (xs : List ℕ) (s : State K) → Workable task → RowsRight m task xs → (task.method ≡ Prune → Strict m) → Run m task xs s → Right m task.network task.source s.row }
{}

// Plain needs neither worked rows nor the strict laws: it ends in a right row, in which a chain of predecessors leads from the source to each station
// below FAR, on a walk of just its cost, past no station twice.
#[tactic(auto, using(crate::proofs::PlainOrder::by_plain))]
pub fn plain_needs_no_strict_law<K>()
    ensures right { (m : Kind K) → Laws m → ZeroLeast m → (task : Task K) (xs : List ℕ) (s : State K) → Workable task → task.method ≡ Plain → Run m task xs s → Right m task.network task.source s.row }
    ensures reach { (m : Kind K) → Laws m → ZeroLeast m → (task : Task K) (xs : List ℕ) (s : State K) → Workable task → task.method ≡ Plain → Run m task xs s → (B : ℕ) → B < task.network.stations → Below m (s.row.costs B) m.far → (ys : List ℕ) × Chain s.row task.source B ys × Route m task.network task.source s.row B ys }
{}
