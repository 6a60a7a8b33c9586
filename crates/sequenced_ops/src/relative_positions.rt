//! The place of one row relative to another, by their values and then by their days.

ghost use Rattle.sequenced_ops.specs.Sweeping.{IsRelativePosition};

use coalesce_core::compare_values;
use period_core::PeriodRow;
use std::cmp::Ordering;

/// The place of a row relative to another.
pub enum RelativePosition {
    /// The values are lesser, or the same and the row ends before the other begins.
    Before,
    /// The values are greater, or the same and the row begins where the other has ended.
    After,
    /// The values are the same, and a day is common.
    Overlapping,
}

/// The place of the first row relative to the second.
pub fn relative_position(row: &PeriodRow, other: &PeriodRow) -> RelativePosition
    ensures { IsRelativePosition result row.now other.now }
{
    match compare_values(row.values.as_slice(), other.values.as_slice()) {
        Ordering::Less => RelativePosition::Before,
        Ordering::Greater => RelativePosition::After,
        Ordering::Equal => {
            if row.period.end <= other.period.start {
                RelativePosition::Before
            } else if other.period.end <= row.period.start {
                RelativePosition::After
            } else {
                RelativePosition::Overlapping
            }
        }
    }
}
