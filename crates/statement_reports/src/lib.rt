//! The results of statements, and their reports: a record of comma-separated fields for each thing
//! that is reported. To add a kind of outcome, touch `outcome.rt`, its record in `report.rt` and in
//! `specs/Report`; to add a cell of a list of versions, `Cell`, its text in `record.rt` and in
//! `specs/Report`.
//!
//! Reports depend on nothing that runs statements, so that their proof need not wait for that.
#![tactic(auto)]

mod audited;
mod buffer;
mod check;
mod entry;
mod fault;
mod outcome;
mod record;
mod report;
mod statement;
mod writer;

pub use audited::write_audited;
pub use check::write_check;
pub use entry::Entry;
pub use fault::ReportFault;
pub use outcome::{Cell, Outcome, VersionColumn, VersionList, Word};
pub use report::write_report;
pub use statement::{write_audited_statement, write_statement};
pub use writer::{ReportWriter, WriteRefused};
