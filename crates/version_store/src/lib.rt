//! The version store: the tables' definitions, the clock and the version rows in a `sqlite`
//! database. What a store represents is in `specs/Contents`, what the changes make of it in
//! `specs/Changed`, which rows of the three tables it has in `specs/Written`, and which databases
//! are opened in `specs/GoodStore`. Each change is made whole in one transaction, or not at all.
#![tactic(auto)]

mod copying;
mod fault;
mod insertion;
mod inspection;
pub mod laws;
mod plans;
mod row_checks;
mod row_values;
mod runs;
mod scans;
mod store;
mod transactions;
mod version_lists;
mod version_reader;
mod visitor;
mod written_rows;

pub use laws::{kit_memory_is_usable, others_stay, plans_leave_other_tables};
pub use store::VersionStore;
pub use store::opened::OpenedStore;
pub use visitor::{RowCollector, RowVisitor};
