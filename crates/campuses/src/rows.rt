// What the definitions say of rows by hand.
ghost use Rattle.std.specs.Prelude.{◌≡◌, []};
ghost use Rattle.std.specs.List.{Contains};
ghost use Rattle.cost.specs.Kind.{Same};
ghost use Rattle.cost.specs.Sum.{sum_kind, sum_cost};
ghost use Rattle.cost.specs.declared.sum.Sum.{Sum};
ghost use Rattle.routes.specs.Least.{Least};
ghost use Rattle.routes.specs.Row.{Row, Right};
ghost use Rattle.campuses.specs.Campuses.{campus_h, campus_j, row_h, supplied};
ghost use Rattle.campuses.specs.Sheets.{Alike, Sheet, sheets, computed_failing, failing_by_hand};

// The stations that fail are those by hand; each row by hand in which none fails is right. So campus H has one right row of source 0, which the
// supplier's is not, and on campus J station 5 costs 4 from station 0.
#[tactic(auto, using(crate::proofs::RightSheets::of_sheets))]
pub fn rows_by_hand()
    ensures failing { computed_failing ≡ failing_by_hand }
    ensures right { (s : Sheet) → Contains sheets s → s.failing ≡ [] → Right sum_kind s.network s.source s.row }
    ensures only { (other : Row Sum) → Right sum_kind campus_h 0 other → Alike 5 row_h other }
    ensures supplied_wrong { Right sum_kind campus_h 0 supplied → ⊥ }
    ensures cost_on_j { (c : Sum) → Least sum_kind campus_j 0 5 c → Same sum_kind c (sum_cost 4) }
{}
