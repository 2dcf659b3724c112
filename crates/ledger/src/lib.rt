// The ledger of a plan and its site log: what the calls on a plan have to answer, from its commissioning and their arguments alone.
// Rests on the theory of routes.
// Tables and plans are proved against these definitions; nothing here is code.
#![tactic(auto)]

mod agreeing;
mod asking;
mod changing;
mod links;
mod log;

pub use agreeing::{checks_agree, costs_agree, routes_agree, works_agree};
pub use asking::{check_stands, cost_stands, route_stands};
pub use changing::{lay_stands, lift_stands, work_stands};
pub use links::links_stay_fair;
pub use log::{marks_tell_of_work, start_stands};
