//! The conditions of stored queries: their faults, and what they are with positions in place of
//! names.

ghost use Rattle.std.specs.Prelude.{◌≡◌};
ghost use Rattle.statement_resolution.specs.TableFaults.{period_faults};
ghost use Rattle.statement_resolution.specs.stored.StoredPlacing.{placed_days};
ghost use Rattle.statement_resolution.specs.stored.StoredQueries.{side_parts};

use crate::faults::Faults;
use crate::query::scope::Scope;
use crate::query::seen::is_qualified;
use crate::resolver::Resolver;
use catalog_core::{PeriodSide, TableDef, VersionTest};
use period_core::{Memory, Period};
use sql_statements::{PeriodOperand, StoredTest};
use std::alloc::Global;

/// A side of a period predicate: the row's if it would have no day, as in no accepted query.
fn resolve_days(side: &PeriodOperand) -> PeriodSide
    ensures { side_parts result ≡ placed_days side.now }
{
    match side {
        PeriodOperand::Named(_) => PeriodSide::Row,
        PeriodOperand::Dates(start, end) => match Period::new(*start, *end) {
            Some(period) => PeriodSide::Days(period),
            None => PeriodSide::Row,
        },
    }
}

/// The faults of a side of a period predicate.
#[tactic(auto, unfolding(crate::specs::TableFaults::period_faults))]
fn period_faults(table: &TableDef, period: &PeriodOperand) -> Faults
    ensures { result ≡ period_faults table.now period.now }
{
    match period {
        PeriodOperand::Named(named) => Faults {
            unknown: !(is_qualified(&named.qualifier, &table.name)
                && named.name.is(&table.period.name)),
            ..Faults::none()
        },
        PeriodOperand::Dates(start, end) => Faults {
            empty: *end <= *start,
            ..Faults::none()
        },
    }
}

/// A table and its columns, which tests of its versions see.
#[derive(Clone, Copy)]
pub struct StoredScope<'a> {
    pub table: &'a TableDef,
    pub columns: Scope<'a>,
}

impl<'a> Resolver<StoredTest> for StoredScope<'a> {
    ghost use Rattle.std.specs.Prelude.{Option, Some};
    ghost use Rattle.statement_resolution.specs.TableFaults.{test_faults};
    ghost use Rattle.statement_resolution.specs.query.Places.{place_among};
    ghost use Rattle.statement_resolution.specs.stored.StoredPlacing.{placed_test};
    ghost use Rattle.statement_resolution.specs.stored.StoredQueries.{PlainTest, test_parts};

    type Resolved = VersionTest;

    ghost Parts = { Option PlainTest };

    ghost faults = { λ s x. test_faults s.table.now s.columns.seen.now x };

    ghost placed = { λ s x.
        Some (placed_test (place_among s.columns.before.now s.columns.seen.now) x) };

    ghost parts = { λ numbered. Some (test_parts numbered) };

    #[tactic(auto, unfolding(crate::specs::TableFaults::test_faults))]
    fn resolve_test(
        &self,
        alloc: Global,
        test: &StoredTest,
        found: &mut Faults,
    ) -> Result<VersionTest, Memory> {
        match test {
            StoredTest::Values(compare) => {
                let compare = self.columns.resolve_test(alloc, compare, found)?;
                Ok(VersionTest::Values(compare))
            }
            StoredTest::Periods(left, predicate, right) => {
                let table = self.table;
                *found = found.or(period_faults(table, left).or(period_faults(table, right)));
                let left = resolve_days(left);
                let right = resolve_days(right);
                Ok(VersionTest::Periods(left, *predicate, right))
            }
            StoredTest::ContainsDay(side, day) => {
                *found = found.or(period_faults(self.table, side));
                let side = resolve_days(side);
                Ok(VersionTest::ContainsDay(side, *day))
            }
        }
    }
}
