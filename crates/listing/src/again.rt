// A theorem about rows that are all worked, one after the other.
ghost use Rattle.std.specs.Prelude.{◌≡◌, ℕ, ◌<◌, true};
ghost use Rattle.cost.specs.Kind.{Kind};
ghost use Rattle.listing.specs.AllRows.{AllWorked};
ghost use Rattle.plan.specs.View.{view};
ghost use Rattle.tables.specs.declared.state.Tables.{Tables as Plan};
ghost use Rattle.queue.specs.Meaning.{Meaning};
ghost use Rattle.routes.specs.declared.method.Method.{Method};

// The list of links stays; and where every row is worked already, nothing changes, of the queue neither.
pub fn all_worked_again<K>()
    ensures list { (m : Kind K) (method : Method) (n : ℕ) (p p' : Plan K) (q q' : Meaning) → AllWorked m method p q n p' q' → p'.list.now ≡ p.list.now }
    ensures plan { (m : Kind K) (method : Method) (n : ℕ) (p p' : Plan K) (q q' : Meaning) → AllWorked m method p q n p' q' → ((a : ℕ) → a < n → (view m p).ledger.marked a ≡ true) → p' ≡ p }
    ensures queue { (m : Kind K) (method : Method) (n : ℕ) (p p' : Plan K) (q q' : Meaning) → AllWorked m method p q n p' q' → ((a : ℕ) → a < n → (view m p).ledger.marked a ≡ true) → q' ≡ q }
{}
