// Cost kinds: what a cost is, how costs join along a walk, and the laws that every kind shows.
// Rests on the refusals.
// What rests on it is written for any kind that shows the laws.
#![tactic(auto)]

mod kind;
mod link;
mod split;
mod sum;
mod worked;

pub use kind::{Cost, total};
pub use link::Link;
pub use split::Split;
pub use sum::Sum;
pub use worked::worked_joins;
