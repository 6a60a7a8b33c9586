//! The tables of a store, the judge of their definitions and the definitions' bytes; and changes
//! and queries with positions in place of names, with the truth of their conditions. How a
//! statement is resolved is in `statement_resolution`. What to touch in order to add
//!
//! - a form of change or query: its resolved form in `change.rt`, `stored.rt` or
//!   `query/resolved.rt`, what gives it in `statement_resolution`, and what it makes of a day in
//!   `history_model`;
//! - a refusal of CREATE TABLE: its condition in the list `named_conditions` or
//!   `placed_conditions`, and the function that judges these, `named_fault` or `placed_fault`, in
//!   ascending order. Of a definition the same is asked in `passes_all`: a test by places is one
//!   function, in `create/places.rt`, for both;
//! - a test of a condition: `CompareValues` in `condition.rt` or `VersionTest` in `stored.rt`, and
//!   its truth in `specs/Conditions` or `specs/stored/StoredAnswers`; its faults and its positions
//!   are in `statement_resolution`;
//! - a column type: `ColumnKind` and `ValueKind`, `specs/table/Kinds`, `create/builder.rt` and
//!   `create/places.rt`, and its number in `bytes/`.
#![tactic(auto)]

mod bytes;
mod change;
mod condition;
mod create;
mod limits;
mod query;
mod stored;
mod table;

pub use bytes::laws::definition_reads_back;
pub use bytes::{decode_def, encode_def};
pub use change::{Action, Assignment, Change, InsertedRow, Plan};
pub use condition::{Comparand, CompareValues, Cond, holds, is_allowed};
pub use create::define;
pub use create::lawful::lawful;
pub use limits::MOST_TABLES;
pub use query::fit::fits;
pub use query::resolved::{Query, QueryReference, Select, Tables};
pub use query::{AnswerColumn, resolved};
pub use stored::{PeriodSide, Stored, VersionTest, meets};
pub use table::catalog::{Catalog, of_number, of_number_mut};
pub use table::columns::{def_places, is_value_column, names_non_value_column, value_position};
pub use table::kinds::{def_kind, differ, is_system, kind_of_column, kind_of_value, same_kind};
pub use table::match_counts::{MatchCount, def_matches, match_count, repeats, some_def_match};
pub use table::named::{known_name, matches_among, name_or};
pub use table::{Column, ColumnKind, PeriodColumns, Reference, TableDef, ValueKind};
