// The shelf: a queue that keeps the rank of each station that waits, and looks through all stations to take one.
// Rests on the meaning of queues.
// Who uses it sees that meaning alone. Made for small campuses, where looking through all stations is soon done.
#![tactic(auto)]

mod calls;
mod state;

pub use state::Shelf;
