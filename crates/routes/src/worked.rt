// Six stations, by the definitions and by the rules.
ghost use Rattle.std.specs.Prelude.{◌≡◌, ℕ, List, [], ◌∷◌, Option};
ghost use Rattle.cost.specs.Sum.{sum_kind};
ghost use Rattle.cost.specs.declared.sum.Sum.{Sum};
ghost use Rattle.routes.specs.Network.{Between, OnePerPair, NoneFree};
ghost use Rattle.routes.specs.Row.{Row, Right};
ghost use Rattle.routes.specs.Task.{Workable, RowsRight};
ghost use Rattle.routes.specs.Runs.{Run};
ghost use Rattle.routes.specs.Six.{six, row_of_zero, row_of_two, two_worked, both_worked, five_wrong, odd, lone, to_work, after};
ghost use Rattle.routes.specs.Worked.{computed_steps, hand_steps, computed_failures, hand_failures, computed_tight, hand_tight};
ghost use Rattle.routes.specs.declared.method.Method.{Method};
ghost use Rattle.routes.specs.declared.method.Method.TheVariants.{Plain, Reuse, Prune};

// What the definitions compute of six stations is what the rules give: each step of the three methods, who fails in wrong rows, and which links are
// tight. And what the theorems ask of links, source and worked rows holds of these stations; both rows are right, and the steps are whole runs. A row of a
// station that is not taken may be wrong, and links that a plan does not have may be worked.
#[tactic(auto, using(crate::proofs::WorkedRuns::worked_out))]
pub fn worked_network()
    ensures steps { computed_steps ≡ hand_steps }
    ensures failures { computed_failures ≡ hand_failures }
    ensures tight { computed_tight ≡ hand_tight }
    ensures links { Between six × OnePerPair six × NoneFree sum_kind six }
    ensures right { Right sum_kind six 0 row_of_zero × Right sum_kind six 2 row_of_two }
    ensures source { (method : Method) (rows : ℕ → Option (Row Sum)) → Workable (to_work method rows) }
    ensures two { (method : Method) (xs : List ℕ) → RowsRight sum_kind (to_work method two_worked) xs }
    ensures both { (method : Method) (xs : List ℕ) → RowsRight sum_kind (to_work method both_worked) xs }
    ensures five { (method : Method) → RowsRight sum_kind (to_work method five_wrong) (0 ∷ 2 ∷ 1 ∷ 3 ∷ 4 ∷ []) }
    ensures wrong { Right sum_kind six 5 row_of_zero → ⊥ }
    ensures odd { (method : Method) (rows : ℕ → Option (Row Sum)) → Workable (record { network = odd; rows = rows; source = 1; method = method }) }
    ensures lone { Between lone × OnePerPair lone × NoneFree sum_kind lone }
    ensures plain { Run sum_kind (to_work Plain both_worked) (0 ∷ 2 ∷ 1 ∷ 3 ∷ 4 ∷ []) (after (to_work Plain both_worked) (0 ∷ 2 ∷ 1 ∷ 3 ∷ 4 ∷ [])) }
    ensures reuse { Run sum_kind (to_work Reuse both_worked) (0 ∷ []) (after (to_work Reuse both_worked) (0 ∷ [])) }
    ensures along_two { Run sum_kind (to_work Reuse two_worked) (0 ∷ 2 ∷ 1 ∷ []) (after (to_work Reuse two_worked) (0 ∷ 2 ∷ 1 ∷ [])) }
    ensures prune { Run sum_kind (to_work Prune both_worked) (0 ∷ 2 ∷ 1 ∷ 3 ∷ 4 ∷ []) (after (to_work Prune both_worked) (0 ∷ 2 ∷ 1 ∷ 3 ∷ 4 ∷ [])) }
{}
