//! The days on which something may change.

ghost use Rattle.std.specs.Prelude.{◌↔◌, ◌⊎◌, ◌∷◌, Contains, IfOk, OnOk, ℤ};
ghost use Rattle.catalog_core.specs.query.Queries.{plain_query};
ghost use Rattle.snapshot_audit.specs.ChangeDays.{AreChangeDays, EndsOn, EndsAmong, seen_lists};

use crate::sets::sorted_once;
use catalog_core::resolved::{Query, Tables};
use period_core::{Day, Memory, PeriodRow};
use std::alloc::Global;

/// 0001-01-01, and each day on which a row of the list starts or ends, or a row that a reference of
/// the query sees, in ascending order, each once. 9999-12-31 may be among the days, as an end.
pub fn change_days(
    alloc: Global,
    query: &Query,
    tables: &Tables,
    rows: &[PeriodRow],
) -> Result<Vec<Day>, Memory>
    ensures { IfOk result (λ days.
        AreChangeDays (rows.now ∷ seen_lists (plain_query query.now) tables.now) days.items) }
{
    let mut days = Vec::new(alloc);
    days.push(Day::first())?;
    add_ends(&mut days, rows)?;
    add_seen_ends(&mut days, query, tables)?;
    sorted_once(days)
}

// Adds the start and the end of each row.
fn add_ends(days: &mut Vec<Day>, rows: &[PeriodRow]) -> Result<(), Memory>
    ensures { OnOk result ((day : ℤ) →
        (Contains days.new.items day ↔ (Contains days.old.items day ⊎ EndsOn rows.now day))) }
{
    for row in rows {
        days.push(row.period.start)?;
        days.push(row.period.end)?;
    }
    Ok(())
}

// Adds the start and the end of each row that a reference of the query sees.
fn add_seen_ends(days: &mut Vec<Day>, query: &Query, tables: &Tables) -> Result<(), Memory>
    ensures { OnOk result ((day : ℤ) → (Contains days.new.items day
        ↔ (Contains days.old.items day
        ⊎ EndsAmong (seen_lists (plain_query query.now) tables.now) day))) }
{
    match query {
        Query::Select(select) => {
            for reference in select.references.as_slice() {
                add_ends(days, tables.rows_for(reference))?;
            }
            Ok(())
        }
        Query::Combined(_, left, right) => {
            add_seen_ends(days, left, tables)?;
            add_seen_ends(days, right, tables)
        }
    }
}
