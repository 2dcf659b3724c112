// What a shelf is made of.
ghost use Rattle.std.specs.Prelude.{◌≤◌};

// The rank of each station that waits, and nothing where a station does not wait; fixed memory, of which `stations` places count.
#[derive(Drop)]
pub struct Shelf {
    pub(crate) ranks: [Option<u64>; 256],
    pub(crate) stations: u16,
    pub(crate) taken: u16,
    ghost some_station: { 1 ≤ stations },
    ghost not_too_many: { stations ≤ 256 },
    ghost taken_stops: { taken ≤ 65535 },
}
