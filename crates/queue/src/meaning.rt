// A queue by its meaning: how many stations there are, who waits at which rank, and how many were taken.
ghost use Rattle.std.specs.Prelude.{◌≡◌, is_some, is_ok, IfOk, if◌then◌else◌};
ghost use Rattle.refusal.specs.First.{told};
ghost use Rattle.queue.specs.Meaning.{Meaning, Sound};
ghost use Rattle.queue.specs.Calls.{fresh, after_put, Takes};
ghost use Rattle.queue.specs.Refusals.{count_refusal, station_refusal};

use refusal::Refusal;

pub trait Queue: Sized {
    ghost meaning: { Self → Meaning };

    // A queue of one station, with nobody waiting and nothing taken.
    fn new() -> Self
        ensures value { meaning result ≡ fresh 1 };

    // Sets the station count, and leaves nobody waiting and nothing taken.
    fn reset(&mut self, stations: u16) -> Result<(), Refusal>
        ensures refused { told result ≡ count_refusal stations }
        ensures after { meaning self.new ≡ (if is_ok result then fresh stations else meaning self.old) };

    // Makes a station wait at a rank; one that waits already gets it only where it is the lower.
    fn put(&mut self, station: u16, rank: u64) -> Result<(), Refusal>
        ensures refused { told result ≡ station_refusal (meaning self.old) station }
        ensures after { meaning self.new ≡ (if is_ok result then after_put (meaning self.old) station rank else meaning self.old) };

    // Removes a station of the lowest rank, and answers it; none where nobody waits.
    fn take(&mut self) -> Option<u16>
        ensures takes { Takes (meaning self.old) result (meaning self.new) };

    // Whether a station waits.
    fn waits(&self, station: u16) -> Result<bool, Refusal>
        ensures refused { told result ≡ station_refusal (meaning self.now) station }
        ensures value { IfOk result (λ b. b ≡ is_some ((meaning self.now).ranks station)) };

    // The number of stations taken since the last reset, up to 65,535.
    fn taken(&self) -> u16
        ensures value { result ≡ (meaning self.now).taken };

    ghost sound: { (q : Self) → Sound (meaning q) };
}
