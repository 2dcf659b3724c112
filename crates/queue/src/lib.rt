// Queues: stations wait at ranks, and one of the lowest rank is taken. One meaning for every implementation.
// Rests on the refusals.
// Shelf and heap keep that meaning; what uses a queue is written for any that does.
#![tactic(auto)]

mod counted;
mod drained;
mod draining;
mod meaning;

pub use counted::counts_are_accepted;
pub use drained::drained_lists;
pub use draining::drain;
pub use meaning::Queue;
