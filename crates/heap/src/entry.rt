// What stands at a place of the tree of a heap.
ghost use Rattle.std.specs.Prelude.{◌≡◌, nat_lt};
ghost use Rattle.heap.specs.Seating.{key};

// A station, and the rank at which it waits.
#[derive(Clone, Copy)]
pub(crate) struct Entry {
    pub(crate) rank: u64,
    pub(crate) station: u8,
}

impl Entry {
    // Whether this entry comes before another in the order of the tree, as the one of the lower rank does.
    #[inline(always)]
    pub(crate) fn precedes(self, other: Entry) -> bool
        ensures { result ≡ nat_lt (key self) (key other) }
    {
        self.rank < other.rank
    }
}
