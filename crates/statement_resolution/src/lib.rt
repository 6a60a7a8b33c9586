//! Statements about the tables of a catalog with positions in place of names, or the
//! lowest-numbered refusal that applies. The types that a statement becomes are in `catalog_core`,
//! since the store needs them too. The store does not need this crate, so a changed refusal does
//! not prove the store anew. What to touch in order to add
//!
//! - a form of change or query: its conditions and what it is by positions in the folder of that
//! name in `specs/`, and a file like `change/portion_changes.rt` or `query/resolution.rt`;
//! - a refusal of a statement: of INSERT the list of its conditions (`insert_conditions`) and the
//!   function that judges them (`shape_fault`, `value_fault`), both in ascending order; of another
//!   form one of `Faults`, in `fault_conditions` and `Faults::first` in ascending order, and the
//!   faults of the part that may have it. The refusals of CREATE TABLE are in `catalog_core`;
//! - a test of a condition: its faults and its positions in its `Resolver` (`comparison.rt`,
//!   `stored/conditions.rt`), as `specs/TableFaults`, `specs/Positions` and
//!   `specs/stored/StoredQueries` define them.
#![tactic(auto)]

mod change;
mod comparison;
mod faults;
mod limits;
mod positions;
mod query;
mod resolver;
mod stored;
mod system_window;

pub use change::portion_changes::{resolve_delete, resolve_update};
pub use change::resolution::{resolve_change, resolve_insert};
pub use query::resolution::{resolve_query, resolve_sequenced};
pub use stored::resolution::{resolve_stored, resolve_stored_query};
