// Theorems about tables, cell by cell.
ghost use Rattle.std.specs.Prelude.{ℕ, ◌+◌, ◌*◌, ◌<◌, List, slice_index};
ghost use Rattle.cost.specs.Kind.{Kind};
ghost use Rattle.routes.specs.Network.{Network};
ghost use Rattle.routes.specs.Row.{Right, Row};
ghost use Rattle.tables.specs.Copied.{Copied};
ghost use Rattle.capi.specs.Cells.{CellTold};
ghost use Rattle.capi.specs.Tabled.{Bounds, Filled, Tabled};

// The cell of a row and a station lies at the place of that row and that station, and tells the least cost and the station just before, which is
// missing exactly at the source and at FAR. So it is with a single row.
pub fn tables_hold_least_costs<K>()
    ensures cells { (m : Kind K) (net : Network K) (xs xs' ys ys' : List ℕ) → Tabled m net xs xs' ys ys' → (a b : ℕ) → a < net.stations → b < net.stations → CellTold m net a b (slice_index xs' (a * net.stations + b)) (slice_index ys' (a * net.stations + b)) }
    ensures rows { (m : Kind K) (net : Network K) (rows : ℕ → Row K) (xs xs' ys ys' : List ℕ) → Bounds net → Filled m net rows xs xs' ys ys' → (a b : ℕ) → a < net.stations → b < net.stations → Right m net a (rows a) → CellTold m net a b (slice_index xs' (a * net.stations + b)) (slice_index ys' (a * net.stations + b)) }
    ensures row { (m : Kind K) (net : Network K) (row : Row K) (xs xs' ys ys' : List ℕ) → Bounds net → Copied m net.stations row xs xs' ys ys' → (a b : ℕ) → a < net.stations → b < net.stations → Right m net a row → CellTold m net a b (slice_index xs' b) (slice_index ys' b) }
{}
