// Replays: a list of entries is run on a plan, one call after the other, and each is answered.
// Rests on plans, and on the theory of the ledger.
// Programs that run a site's calls make them by it.
#![tactic(auto)]

mod entry;
mod keeping;
mod run;
mod step;

pub use entry::{Answer, Entry};
pub use keeping::replays_keep;
pub use run::replay;
