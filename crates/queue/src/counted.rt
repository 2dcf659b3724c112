// A theorem about the count of a queue's stations.
ghost use Rattle.std.specs.Prelude.{◌≡◌, None};
ghost use Rattle.queue.specs.Meaning.{Meaning, Sound};
ghost use Rattle.queue.specs.Refusals.{count_refusal};

// The count that a queue has is one that a reset accepts.
pub fn counts_are_accepted()
    ensures accepted { (m : Meaning) → Sound m → count_refusal m.stations ≡ None }
{}
