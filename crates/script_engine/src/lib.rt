//! The engine, the scripts that it runs, and their checks. What to touch in order to add
//!
//! - a form of statement that runs: `Engine::execute` in `engine.rt`, `Accepts` and
//!   `StatementApplies` in `specs/engine/Runs`; if it has an outcome of its own,
//!   `statement_reports`;
//! - a form of change: its word and its count in `engine/outcome.rt` and `specs/engine/Planned`;
//!   its plan is made by `period_keys` over the rows in memory, which `engine/in_memory.rt` keeps;
//! - a column of a list of versions: its cell in `statement_reports`, `engine/version_lists.rt` and
//!   `specs/engine/VersionLists`.
#![tactic(auto)]

mod engine;
pub mod laws;
mod script;

pub use engine::Engine;
pub use script::check::check_script;
pub use script::listener::Listener;
pub use script::noted::Noted;
pub use script::over::run_over;
pub use script::piece_result::PieceResult;
pub use script::read_only::ReadOnly;
pub use script::timed::{Timed, system_time};
pub use script::{MOST_BYTES, run, run_audited, run_script};
pub use snapshot_audit::Verdict;
pub use statement_reports::{
    Cell, Entry, Outcome, ReportFault, ReportWriter, VersionColumn, VersionList, Word,
    WriteRefused, write_audited, write_audited_statement, write_check, write_report,
    write_statement,
};
