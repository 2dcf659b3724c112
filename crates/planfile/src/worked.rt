// A plan and its file, byte by byte.
ghost use Rattle.std.specs.Prelude.{◌≡◌, ℕ, ◌≤◌, Bool, true, List, map, length, None, Some};
ghost use Rattle.cost.specs.Sum.{sum_formed, sum_kind};
ghost use Rattle.cost.specs.declared.link.Link.{Link};
ghost use Rattle.cost.specs.declared.sum.Sum.{Sum};
ghost use Rattle.filekind.specs.Format.{sum_format};
ghost use Rattle.refusal.specs.Code.{bare};
ghost use Rattle.planfile.specs.Encoding.{encoding, file_of};
ghost use Rattle.planfile.specs.Reading.{links_of, reading_refusal, stations_of};
ghost use Rattle.planfile.specs.Records.{fields_of};
ghost use Rattle.planfile.specs.RoundTrip.{Accepts, Holds, PlanFits, Unambiguous};
ghost use Rattle.planfile.specs.Writing.{writing_refusal};
ghost use Rattle.planfile.specs.Worked.{least_bytes, worked_bytes, worked_links, worked_records};
ghost use Rattle.planfile.specs.declared.fields.Fields.{Fields};

// What the definitions make of the plan is the file in the table, and what is read of the file is the plan. And what is promised of
// reading and writing says so: lists of 2 to 4,096 places take the file, and one place is enough for the least file; what a file
// holds is written into a buffer of just its length; no other file holds the plan, and it is the file of no other plan.
#[tactic(auto, using(crate::proofs::WorkedFile::worked_out))]
pub fn worked_file()
    ensures bytes { file_of sum_kind sum_format 256 worked_links ≡ worked_bytes }
    ensures records { map (fields_of sum_kind) worked_links ≡ worked_records }
    ensures read { (stations_of worked_bytes ≡ 256) × (links_of sum_kind sum_formed worked_bytes ≡ worked_links) }
    ensures refused { (reading_refusal sum_format 2 worked_bytes ≡ None) × (reading_refusal sum_format 1 worked_bytes ≡ Some (bare 19)) }
    ensures accepted { (places : ℕ) (ok : Bool) → 2 ≤ places → places ≤ 4096 → Accepts sum_format places worked_bytes ok → ok ≡ true }
    ensures least { (ok : Bool) → Accepts sum_format 1 least_bytes ok → ok ≡ true }
    ensures held { (bs : List ℕ) → Holds sum_kind sum_format 256 worked_links bs → bs ≡ worked_bytes }
    ensures written_back { (n : ℕ) (links : List (Link Sum)) (bs : List ℕ) → Holds sum_kind sum_format n links bs → writing_refusal sum_kind sum_format n links (length bs) ≡ None }
    ensures alone { Unambiguous sum_format → (n : ℕ) (xs : List Fields) → PlanFits n xs → encoding sum_format n xs ≡ worked_bytes → (n ≡ 256) × (xs ≡ worked_records) }
{}
