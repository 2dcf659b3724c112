// Two campuses, worked by hand: what the definitions say of them, and what the calls on a plan answer.
// Rests on plans and replays; a program prints the answers.
#![tactic(auto)]

mod answers;
mod calls;
mod hazards;
mod rows;

pub use answers::{Answers, worked_campuses};
pub use hazards::three_hazards;
pub use rows::rows_by_hand;
