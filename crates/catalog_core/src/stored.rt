//! Stored queries with positions in place of names, and the versions that they show.

ghost use Rattle.std.specs.Prelude.{◌≡◌};
ghost use Rattle.catalog_core.specs.stored.StoredAnswers.{is_shown, relates, side_period};

use crate::condition::{CompareValues, Subject, satisfies};
use period_core::{Day, Period, VersionRow, Window};
use sql_statements::{PeriodPredicate, Tree};

/// A side of a period predicate: the version's own period, or a literal's.
#[derive(Clone, Copy)]
pub enum PeriodSide {
    Row,
    Days(Period),
}

/// A test of a version.
#[derive(Drop)]
pub enum VersionTest {
    Values(CompareValues),
    Periods(PeriodSide, PeriodPredicate, PeriodSide),
    ContainsDay(PeriodSide, Day),
}

/// A query of the versions of a table, by its number: those that the window sees and that meet the
/// condition, if there is one.
#[derive(Drop)]
pub struct Stored {
    pub table: u8,
    pub window: Window,
    pub condition: Option<Tree<VersionTest>>,
}

/// The period of a side.
fn side_period(side: PeriodSide, version: &VersionRow) -> Period
    ensures { result ≡ side_period version.now side }
{
    match side {
        PeriodSide::Row => version.period,
        PeriodSide::Days(period) => period,
    }
}

/// Whether the predicate holds of two periods.
fn relates(predicate: PeriodPredicate, left: Period, right: Period) -> bool
    ensures { result ≡ relates predicate left right }
{
    match predicate {
        PeriodPredicate::Overlaps => left.overlaps(right),
        PeriodPredicate::Equals => left.equals(right),
        PeriodPredicate::Contains => left.contains(right),
        PeriodPredicate::Precedes => left.precedes(right),
        PeriodPredicate::Succeeds => left.succeeds(right),
        PeriodPredicate::ImmediatelyPrecedes => left.immediately_precedes(right),
        PeriodPredicate::ImmediatelySucceeds => left.immediately_succeeds(right),
    }
}

impl<'a> Subject<VersionTest> for &'a VersionRow {
    ghost use Rattle.catalog_core.specs.stored.StoredAnswers.{passes_test};

    ghost passed = { λ version. passes_test version.now };

    fn passes(self, test: &VersionTest) -> bool {
        match test {
            VersionTest::Values(compare) => self.values.as_slice().passes(compare),
            VersionTest::Periods(left, predicate, right) => relates(
                *predicate,
                side_period(*left, self),
                side_period(*right, self),
            ),
            VersionTest::ContainsDay(side, day) => side_period(*side, self).contains_day(*day),
        }
    }
}

/// Whether the query shows the version: its window sees it, and its condition holds of it. It takes
/// no memory.
pub fn meets(stored: &Stored, version: &VersionRow) -> bool
    ensures { result ≡ is_shown stored.now version.now }
{
    if !stored.window.sees(version.from, version.to) {
        return false;
    }
    match &stored.condition {
        Some(condition) => satisfies(condition, version),
        None => true,
    }
}
