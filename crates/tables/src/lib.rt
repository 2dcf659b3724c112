// Tables: plans, in memory that their callers lend, a list of links and tables of costs and of predecessors. The calls on them, each with the
// promise that it keeps over every site log; and below these calls, what is left in every cell.
// Rests on the ledger, the theory of routes, the meaning of queues, plan files, departures and the test of rows.
// Programs use them as plans, by the name that the crate `plan` gives them.
#![tactic(auto)]

mod again;
mod asking;
mod calls;
mod commissioning;
mod copying;
mod following;
mod labels;
mod laying;
mod reading;
mod starting;
mod state;
mod working;

pub use again::again_is_no_change;
pub use state::Tables;
