// A theorem about what is done again.
ghost use Rattle.std.specs.Prelude.{◌≡◌, ℕ, List, Option};
ghost use Rattle.cost.specs.Kind.{Kind};
ghost use Rattle.ledger.specs.Ledger.{Ledger};
ghost use Rattle.tables.specs.Again.{Held};
ghost use Rattle.tables.specs.Made.{Made};
ghost use Rattle.tables.specs.Read.{Read};
ghost use Rattle.tables.specs.Relinked.{Relinked};
ghost use Rattle.tables.specs.declared.state.Tables.{Tables};

// Commissioning by the same number of stations, or by the same file, a second time changes nothing; and links that are put where they stand leave the
// list as it is.
#[tactic(auto, using(crate::proofs::Repeated::repeated))]
pub fn again_is_no_change<K>()
    ensures made { (m : Kind K) (n : ℕ) (t t' t'' : Tables K) → Made m n t t' → Made m n t' t'' → Held t' t'' }
    ensures read { (m : Kind K) (formed : ℕ → Option K) (bs : List ℕ) (t t' t'' : Tables K) → Read m formed bs t t' → Read m formed bs t' t'' → Held t' t'' }
    ensures relinked { (m : Kind K) (g : Ledger K) (t t' t'' : Tables K) → Relinked m g t t' → Relinked m g t' t'' → t''.list.now ≡ t'.list.now }
{}
