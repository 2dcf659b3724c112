// What the tables of a plan are made of.
ghost use Rattle.std.specs.Prelude.{◌≡◌, ℕ, ◌*◌, ◌<◌, ◌≤◌, false, length, take, slice_index_or, slice_set};
ghost use Rattle.departures.specs.Index.{Indexed};
ghost use Rattle.tables.specs.Filled.{Filled};
ghost use Rattle.cost.specs.declared.link.Link.{Link as LinkOf};

use cost::Link;
use departures::Departures;

// A plan: how many stations and laid links it has, which rows are worked, the memory that it is lent, and the index of the laid links. The lent
// slices are its own fields: of a slice in a struct within a struct its lender would learn nothing when the plan is gone.
#[derive(Drop)]
pub struct Tables<'a, K> {
    pub(crate) stations: u16,
    pub(crate) count: u16,
    pub(crate) worked: [bool; 256],
    pub(crate) list: &'a mut [Link<K>],
    pub(crate) costs: &'a mut [K],
    pub(crate) predecessors: &'a mut [u16],
    pub(crate) departures: Departures,
    ghost few: { stations ≤ 256 },
    ghost marks: { (a : ℕ) → stations ≤ a → slice_index_or worked a false ≡ false },
    ghost counted: { count ≤ length list.now },
    ghost short: { count ≤ 4096 },
    ghost list_short: { 1 ≤ stations → length list.now ≤ 4096 },
    ghost costs_fit: { stations * stations ≤ length costs.now },
    ghost predecessors_fit: { stations * stations ≤ length predecessors.now },
    ghost between: { (k : ℕ) (d : LinkOf K) → k < count → ((slice_index_or list.now k d).from < stations) × ((slice_index_or list.now k d).to < stations) },
    ghost indexed: { Indexed (take count list.now) departures },
}

// What a cell holds.
pub(crate) fn at<T: Copy>(cells: &[T], place: usize) -> T
    requires { place < length cells.now }
    ensures { (d : T) → result ≡ slice_index_or cells.now place d }
{
    cells[place]
}

// Writes a cell.
pub(crate) fn set<T: Copy>(cells: &mut [T], place: usize, value: T)
    requires { place < length cells.old }
    ensures { cells.new ≡ slice_set cells.old place value }
{
    cells[place] = value;
}

// Writes one value into the cells from one place up to another. A loop, since `fill` asks of a type parameter how it is cloned.
#[tactic(auto, using(crate::proofs::Filling::filling))]
pub(crate) fn fill<T: Copy>(cells: &mut [T], from: usize, to: usize, value: T)
    requires { (from ≤ to) × (to ≤ length cells.old) }
    ensures filled { Filled from to value cells.old cells.new }
{
    for place in from..to {
        cells[place] = value;
    }
}
