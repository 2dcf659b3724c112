// Plans: the name that programs use for tables, which have the calls: links are laid and lifted, rows are worked, and costs and routes are asked for.
// Rests on the tables. They are one struct: of a struct within a struct its lender would learn nothing when the plan is gone.
// Programs use plans by this name, not the crates below.
#![tactic(auto)]

pub use tables::Tables as Plan;
