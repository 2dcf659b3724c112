// Routes: walks, least costs and right rows, the methods by which a row is worked, and the theorems about them.
// Rests on the costs and on the meaning of queues.
// What works a row, or checks one, is to be proved against these definitions; nothing here is code but the methods' names.
#![tactic(auto)]

mod method;
mod rows;
mod runs;
mod walks;
mod worked;

pub use method::Method;
pub use rows::{chains_are_routes, right_rows_pass, routes_are_walks};
pub use runs::{plain_needs_no_strict_law, runs_count, runs_end, runs_end_right};
pub use walks::{least_costs_are_one, zero_is_least};
pub use worked::worked_network;
