// The library for programs in C: what is asked of a plan file in one call.
// Rests on plans and listings, which work rows, and on both queues.
// Its functions are declared in bindings/c/firnolvag.h, which states the rules for their callers.
#![tactic(auto)]

mod by_method;
mod cells;
mod check;
mod choices;
mod copying;
mod exports;
mod facts;
mod fault;
mod lent;
mod reading;
mod route;
mod row;
mod splits;
mod sums;
mod whole;
