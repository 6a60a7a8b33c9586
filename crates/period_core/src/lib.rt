//! Days, moments, periods, system-time windows, values, rows over a period, versions, numbered
//! refusals. What to touch in order to add
//!
//! - a refusal: `Refusal` in `refusal.rt`, its number and name there and in `specs/Codes`, the list
//!   in `help.rt` of command_line, the table in docs/PROFILE.md, and its cause and mend in
//!   python/bitemporal_tools/explanation;
//! - a period predicate: its call in `relations.rt`, its table in `specs/PeriodPredicates`, what it
//!   says of the days in `specs/DaySets`, its word in sql_statements, and `relates` of
//!   catalog_core;
//! - a column type: `Value` in `value.rt`, its order in `specs/Order` and `specs/OrderLaws`, its
//!   bytes in `specs/Encoding`, `specs/Decoding`, `encoding.rt` and `decoding.rt`, its text in
//!   `record.rt` and `specs/Report` of statement_reports, and what `lib.rt` of catalog_core names.
#![tactic(auto)]

pub mod answer;
pub mod day;
pub mod decoding;
pub mod encoding;
pub mod encoding_laws;
pub mod items;
pub mod memory;
pub mod moment;
pub mod period;
pub mod refusal;
mod relations;
pub mod row;
mod runs;
pub mod text;
mod text_reading;
pub mod value;
pub mod version;
pub mod window;

pub use answer::{Answer, Witness};
pub use day::Day;
pub use decoding::{DecodeFault, decode_values};
pub use encoding::encode_values;
pub use encoding_laws::{encoding_keeps_order, encoding_reads_back};
pub use items::Items;
pub use memory::Memory;
pub use moment::Moment;
pub use period::Period;
pub use refusal::Refusal;
pub use row::PeriodRow;
pub use runs::run_end;
pub use text::Text;
pub use value::{GREATEST_NUMBER, Value, Values};
pub use version::VersionRow;
pub use window::Window;
