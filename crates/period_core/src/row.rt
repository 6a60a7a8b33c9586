//! Rows that hold values over a period.

ghost use Rattle.std.specs.Prelude.{◌≡◌, IfOk};

use crate::memory::Memory;
use crate::period::Period;
use crate::value::Values;
use std::alloc::Global;

/// Values that hold on each day of a period. Rows are in the order of their values, and those with
/// the same values in the order of their periods.
#[derive(Drop, Debug, PartialEq, Eq, PartialOrd, Ord)]
pub struct PeriodRow {
    /// The values, column by column.
    pub values: Values,
    /// The days on which they hold.
    pub period: Period,
}

impl PeriodRow {
    /// An equal row.
    pub fn copy(&self, alloc: Global) -> Result<PeriodRow, Memory>
        ensures { IfOk result (λ r. r ≡ self.now) }
    {
        Ok(PeriodRow {
            values: self.values.copy(alloc)?,
            period: self.period,
        })
    }
}
