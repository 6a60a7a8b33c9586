//! Temporal keys and references: the least day on which two rows of a table share its key, or on
//! which a child row has no parent row.
//!
//! - Whole lists are judged by a table's definition (`tables`, `sweep`, over each `row_key`).
//! - A table's current rows are in memory by `key` (`current_rows`, of `groups` of
//! `key_rows`). Those of one key are found by days, if they are many: their periods are stored
//! too, with their places (`placed_period`) in blocks (`block`, `period_blocks`), and
//!   `near_rows` looks at the blocks near a period alone.
//! - References look up periods by key (`periods_by_key`, `periods_of_key`): among the rows, if
//!   their columns are those of the key, or else in an index by their columns (`period_indexes`,
//!   `keyed_periods`, `ordered_periods`). `TableIndex` has both, and follows a change all or none.
//! - Conditions leave a range of a row's values (`fixed_keys`, `key_range`) at the positions of the
//!   key or of a reference's columns (`row_range`). Rows are found by a reference's columns through
//!   a `secondary_index` of their keys, which `TableIndex` has from the first time it is asked for.
//! - `plans` makes a change's plan of the rows that its condition leaves, and of many rows of a key
//!   of those near its portion.
//! - `key_after` finds the range of keys that a join leaves, if the values before it are known.
//! - A plan is judged by the rows that it touches (`faults`, by `clashes` and `references`), and by
//!   all references of the catalog (`reference_faults`).
//! - `table_list` keeps the rows of all tables with the indexes that references need, and
//!   `lawful_states` judges them as a whole.
//! - `specs/Lawful` says which changes are lawful, over the traced rows of a state. The laws that
//!   make the judgement right are in `key_laws` and `lawful_laws`.
#![tactic(auto)]

mod block;
mod changes;
mod clashes;
mod current_rows;
mod faults;
mod fixed_keys;
mod gaps;
mod groups;
mod key;
mod key_after;
mod key_laws;
mod key_range;
mod key_rows;
mod keyed_periods;
mod keys;
mod lawful_laws;
mod lawful_states;
mod near_rows;
mod ordered_periods;
mod period_blocks;
mod period_indexes;
mod periods_by_key;
mod periods_of_key;
mod placed_period;
mod plans;
mod positions;
mod reference_faults;
mod references;
mod row_key;
mod row_range;
mod secondary_index;
mod shared_days;
mod sweep;
mod table_index;
mod table_list;
mod tables;

pub use changes::keys_of;
pub use current_rows::CurrentRows;
pub use faults::{key_fault, rows_of};
pub use fixed_keys::{ColumnTest, range_of_key, range_of_key_within};
pub use key::Key;
pub use key_after::range_of_key_after;
pub use key_laws::{clashes_after_change, clashes_are_of_days, uncovered_are_of_days};
pub use key_range::KeyRange;
pub use lawful_laws::{
    changes_break_their_own_references, key_faults_are_clashes, lacking_parents_are_uncovered,
    states_stay_lawful,
};
pub use lawful_states::is_lawful;
pub use plans::{plan_change, prepare_plan};
pub use positions::positions_of;
pub use reference_faults::reference_fault;
pub use row_range::{FixedValues, RowConditions, RowRange};
pub use table_index::TableIndex;
pub use table_list::{add_table, tables_of};
pub use tables::{key_clash, uncovered};
