//! The place of the row of a period.

use period_core::Period;

/// A row's period, and the row's place among the rows.
#[derive(Clone, Copy)]
pub struct PlacedPeriod {
    /// The period.
    pub period: Period,
    /// The place.
    pub place: usize,
}
