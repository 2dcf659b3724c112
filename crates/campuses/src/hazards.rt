// Three faults that are easily made, and what comes of each.
ghost use Rattle.std.specs.Prelude.{◌≡◌, true, [], ◌∷◌, Some, None};
ghost use Rattle.cost.specs.Kind.{FAR};
ghost use Rattle.cost.specs.Sum.{sum_kind};
ghost use Rattle.routes.specs.Failures.{failures};
ghost use Rattle.routes.specs.Runs.{followed};
ghost use Rattle.routes.specs.State.{begun};
ghost use Rattle.routes.specs.Taken.{all_lowest};
ghost use Rattle.routes.specs.Worked.{numbers};
ghost use Rattle.campuses.specs.Campuses.{campus_h, supplied};
ghost use Rattle.campuses.specs.Hazards.{followed_wrongly, prune_of_j, pruned_wrongly, pruned, without_cause_5, its_own_row, lost};

// Prune that follows the links of recorded predecessors, in place of the tight ones, leaves station 5 of campus J at FAR, where prune reaches it at 4: both
// take a station of the lowest rank each time, until nobody waits. A check without cause 5 passes the supplier's row, whose station 3 fails. And where
// row 0 of campus H is marked before it is worked, reuse reads that row itself: the first station that is taken is the last, and all others stay at FAR.
pub fn three_hazards()
    ensures takes_wrongly { all_lowest 8 (followed_wrongly prune_of_j) (begun sum_kind prune_of_j) (0 ∷ 1 ∷ 2 ∷ 6 ∷ 7 ∷ 3 ∷ 4 ∷ []) ≡ true }
    ensures station_lost { numbers 8 pruned_wrongly ≡ 0 ∷ 1 ∷ 1 ∷ 3 ∷ 3 ∷ FAR ∷ 2 ∷ 2 ∷ [] }
    ensures takes { all_lowest 8 (followed sum_kind prune_of_j) (begun sum_kind prune_of_j) (0 ∷ 1 ∷ 2 ∷ 6 ∷ 7 ∷ 3 ∷ 4 ∷ 5 ∷ []) ≡ true }
    ensures station_reached { numbers 8 pruned ≡ 0 ∷ 1 ∷ 1 ∷ 3 ∷ 3 ∷ 4 ∷ 2 ∷ 2 ∷ [] }
    ensures fails { failures sum_kind campus_h 0 supplied ≡ (3, 5) ∷ [] }
    ensures passed { without_cause_5 ≡ [] }
    ensures takes_one { all_lowest 5 (followed sum_kind its_own_row) (begun sum_kind its_own_row) (0 ∷ []) ≡ true }
    ensures row_lost { numbers 5 lost ≡ 0 ∷ FAR ∷ FAR ∷ FAR ∷ FAR ∷ [] }
{}
