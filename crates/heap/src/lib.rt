// The heap: a queue that keeps the stations that wait in a tree by their ranks, two below each place, and knows the place of each.
// Rests on the meaning of queues.
// Who uses it sees that meaning alone. Made for large campuses, where looking through all stations takes long.
#![tactic(auto)]

mod calls;
mod edits;
mod entry;
mod sift;
mod state;
mod tree;

pub use state::Heap;
