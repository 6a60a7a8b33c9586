//! Changes over portions of application time: which current versions a change ends, which rows it
//! adds, and which rows would be current after it. The definitions of both are in `specs/Portions`
//! of history_model, what a plan is in `specs/Plans`, and what plans make of states in
//! `specs/Laws`. A new form of change gets its case in `touched` and in `push_replacements`.
//! The program plans by `plan_given`, which takes the values of the rows that an INSERT gives, and
//! by `plan_portion`; `plan_insert`, `plan_update` and `plan_delete` are for callers that keep the
//! change.
#![tactic(auto)]

pub mod laws;
mod parts;
mod plan;
mod remaining;

pub use catalog_core::Plan;
pub use plan::{plan_delete, plan_given, plan_insert, plan_portion, plan_update};
pub use remaining::after;
