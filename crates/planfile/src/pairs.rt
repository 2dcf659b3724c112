// The stations of a plan, and the pairs of them that its records have had so far.
ghost use Rattle.std.specs.Prelude.{◌≡◌, ◌+◌, ◌*◌, ◌<◌, ◌≤◌, true, false, not, replicate, nat_lt, slice_index_or, slice_set};

const PAIRS: usize = 65536;

// A flag for each pair of 256 stations, of which the plan has the first so many: fixed memory, where a set would need a heap.
#[derive(Clone, Copy)]
pub(crate) struct Pairs {
    stations: u16,
    seen: [bool; PAIRS],
    ghost few: { stations ≤ 256 },
}

impl Pairs {
    // No pair yet.
    pub(crate) fn new(stations: u16) -> Pairs
        requires { stations ≤ 256 }
        ensures stations { result.stations ≡ stations }
        ensures none { result.seen ≡ replicate 65536 false }
    {
        Pairs {
            stations,
            seen: [false; PAIRS],
        }
    }

    // Whether the plan has a station of this number.
    pub(crate) fn has_station(&self, station: u16) -> bool
        ensures value { result ≡ nat_lt station self.now.stations }
    {
        station < self.stations
    }

    // Adds a pair of the plan's stations, and says whether it is new.
    pub(crate) fn insert(&mut self, from: u16, to: u16) -> bool
        requires { (from < self.old.stations) × (to < self.old.stations) }
        ensures value { result ≡ not (slice_index_or self.old.seen (from * 256 + to) false) }
        ensures stations { self.new.stations ≡ self.old.stations }
        ensures after { self.new.seen ≡ slice_set self.old.seen (from * 256 + to) true }
    {
        let at = from as usize * 256 + to as usize;
        let new = !self.seen[at];
        self.seen[at] = true;
        new
    }
}
