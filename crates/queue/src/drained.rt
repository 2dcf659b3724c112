// A theorem about drained lists.
ghost use Rattle.std.specs.Prelude.{◌≡◌, ◌≢◌, ℕ, ◌+◌, ◌<◌, ◌≤◌, List, None, length, min, slice_index};
ghost use Rattle.queue.specs.Meaning.{Meaning, Waits, most_taken};
ghost use Rattle.queue.specs.Drained.{Drained};

// A drained list, place by place: each station there waited, and waits no more; none stands at two places; ranks rise, and nobody who waits still has a
// lower one than any of theirs. Whoever stands there not waits on as before, and the number taken went up by the length of the list.
#[tactic(auto)]
pub fn drained_lists()
    ensures waited { (m left : Meaning) (xs : List ℕ) → Drained m xs left → (i : ℕ) → i < length xs → (x : ℕ) × Waits m (slice_index xs i) x }
    ensures gone { (m left : Meaning) (xs : List ℕ) → Drained m xs left → (i : ℕ) → i < length xs → left.ranks (slice_index xs i) ≡ None }
    ensures apart { (m left : Meaning) (xs : List ℕ) → Drained m xs left → (i j : ℕ) → i < j → j < length xs → slice_index xs i ≢ slice_index xs j }
    ensures rising { (m left : Meaning) (xs : List ℕ) → Drained m xs left → (i j x y : ℕ) → i < j → j < length xs → Waits m (slice_index xs i) x → Waits m (slice_index xs j) y → x ≤ y }
    ensures none_lower { (m left : Meaning) (xs : List ℕ) → Drained m xs left → (i t x y : ℕ) → i < length xs → Waits m (slice_index xs i) x → Waits left t y → x ≤ y }
    ensures others { (m left : Meaning) (xs : List ℕ) → Drained m xs left → (t : ℕ) → ((i : ℕ) → i < length xs → slice_index xs i ≢ t) → left.ranks t ≡ m.ranks t }
    ensures stations { (m left : Meaning) (xs : List ℕ) → Drained m xs left → left.stations ≡ m.stations }
    ensures taken { (m left : Meaning) (xs : List ℕ) → Drained m xs left → left.taken ≡ min (m.taken + length xs) most_taken }
{}
