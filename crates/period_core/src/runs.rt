//! Runs: rows of the same values, one after the other in a list.

ghost use Rattle.std.specs.Prelude.{◌<◌, length};
ghost use Rattle.period_core.specs.Runs.{IsRunEnd};

use crate::row::PeriodRow;

/// The end of the run of the row at this index: the first index after it whose values differ, or
/// the number of rows.
pub fn run_end(rows: &[PeriodRow], at: usize) -> usize
    requires { at < length rows.now }
    ensures { IsRunEnd rows.now at result }
{
    let values = &rows[at].values;
    let mut end = at + 1;
    while end < rows.len() && rows[end].values == *values {
        end += 1;
    }
    end
}
