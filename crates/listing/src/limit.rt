// How much of an input has to be read.
ghost use Rattle.std.specs.Prelude.{◌≡◌};
ghost use Rattle.listing.specs.Enough.{Enough, most_bytes};

// The most links that a reported plan may have.
pub(crate) const MOST_LINKS: usize = 512;

// A number of bytes that decides the report of any input, however long: the bytes after them change nothing.
#[tactic(auto, using(crate::proofs::Overlong::most_bytes_enough))]
pub fn bytes_to_read() -> u64
    ensures value { result ≡ most_bytes }
    ensures enough { Enough result }
{
    // A header, and a record for each link.
    let longest_plan = 10 + 12 * MOST_LINKS as u64;
    longest_plan + 1
}
