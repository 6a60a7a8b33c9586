//! Why a report is not written.

use thiserror::Error;

/// Why a report was not written.
#[derive(Debug, Drop, Error)]
pub enum ReportFault {
    /// An allocation was refused.
    #[error("out of memory")]
    Memory,
    /// The writer refused a record.
    #[error("the writer failed")]
    Write,
}
