// Accounts: what a plan file holds, or why it is refused, as lines of text.
// Rests on plan files, file kinds, cost kinds and refusals.
// The program `links` prints what it makes.
#![tactic(auto)]

mod limit;
mod text;

pub use limit::bytes_to_read;
pub use text::account;
