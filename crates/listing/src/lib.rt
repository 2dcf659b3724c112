// Listings: all rows of a plan are worked, and the least cost of each pair is told as a line of text.
// Rests on plans; the words of its first line and of refusals are those of accounts.
// The program `costs` prints what it makes.
#![tactic(auto)]

mod again;
mod limit;
mod order;
mod reports;
mod table;
mod works;

pub use again::all_worked_again;
pub use limit::bytes_to_read;
pub use reports::report;
pub use table::{CostWord, table_lines};
pub use works::{work_all, work_each, work_table};
