// What a heap is made of.
ghost use Rattle.std.specs.Prelude.{◌≡◌, ℕ, ◌≤◌, None};
ghost use Rattle.heap.specs.Seating.{seating};
ghost use Rattle.heap.specs.Waiting.{waiting};
ghost use Rattle.heap.specs.Whole.{Whole};

use super::tree::Tree;

// The stations that wait, in a tree whose root has the lowest rank; how many stations there are, from 1 to 256; and how
// many were taken, up to 65,535.
#[derive(Drop)]
pub struct Heap {
    pub(crate) tree: Tree,
    pub(crate) stations: u16,
    pub(crate) taken: u16,
    ghost whole: { Whole (seating tree) },
    ghost only_stations_wait: { (s : ℕ) → stations ≤ s → waiting (seating tree) s ≡ None },
    ghost some_station: { 1 ≤ stations },
    ghost not_too_many: { stations ≤ 256 },
    ghost taken_stops: { taken ≤ 65535 },
}
