//! The periods of one key, in an index or of a table's rows.

ghost use Rattle.std.specs.Prelude.{◌≡◌, ◌++◌, IfOk, map};
ghost use Rattle.period_keys.specs.LookUps.{periods_of};
ghost use Rattle.period_keys.specs.Versions.{period_of};

use crate::key_rows::KeyRows;
use period_core::{Memory, Period, VersionRow};
use std::alloc::Global;

/// The periods of one key: in two lists, each in the order of their starts, or those of its rows.
/// Contracts read them by `periods_of`.
#[derive(Drop)]
pub enum PeriodsOfKey<'a> {
    InRuns(&'a [Period], &'a [Period]),
    OfGroup(&'a KeyRows),
}

impl<'a> PeriodsOfKey<'a> {
    /// The periods, in a list of their own.
    pub fn collect(&self, alloc: Global) -> Result<Vec<Period>, Memory>
        ensures { IfOk result (λ periods. periods.items ≡ periods_of self.now) }
    {
        match self {
            PeriodsOfKey::InRuns(first, second) => collect_runs(alloc, *first, *second),
            PeriodsOfKey::OfGroup(group) => collect_rows(alloc, group.as_slice()),
        }
    }
}

// The periods of both lists.
fn collect_runs(alloc: Global, first: &[Period], second: &[Period]) -> Result<Vec<Period>, Memory>
    ensures { IfOk result (λ periods. periods.items ≡ first.now ++ second.now) }
{
    let mut periods = Vec::new(alloc);
    periods.extend_from_slice(first)?;
    periods.extend_from_slice(second)?;
    Ok(periods)
}

// The periods of the rows.
fn collect_rows(alloc: Global, rows: &[VersionRow]) -> Result<Vec<Period>, Memory>
    ensures { IfOk result (λ periods. periods.items ≡ map period_of rows.now) }
{
    let mut periods = Vec::new(alloc);
    for row in rows {
        periods.push(row.period)?;
    }
    Ok(periods)
}
