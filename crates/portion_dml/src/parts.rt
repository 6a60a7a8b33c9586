//! The versions that a change touches, and the rows that begin in the place of one.

ghost use Rattle.std.specs.Prelude.{◌≡◌, ◌++◌, IfOk, OnOk, map};
ghost use Rattle.catalog_core.specs.Conditions.{meets_any};
ghost use Rattle.history_model.specs.Effects.{with_set};
ghost use Rattle.history_model.specs.Portions.{leftovers, meets_portion, plain_row};
ghost use Rattle.history_model.specs.Portions.{replacements, touches, within};
ghost use Rattle.portion_dml.specs.Parts.{row_over};
ghost use Rattle.portion_dml.specs.Plans.{version_row};

use catalog_core::{Action, Assignment, Cond, holds};
use period_core::{Memory, Period, PeriodRow, Value, Values, VersionRow};
use std::alloc::Global;

/// Whether the action touches the version.
pub fn touched(action: &Action, row: &VersionRow) -> bool
    ensures { result ≡ touches action.now (version_row row.now) }
{
    match action {
        Action::Insert(_) => false,
        Action::Update(portion, _, condition) | Action::Delete(portion, condition) => {
            reaches(portion, row) && is_met_by(condition, row)
        }
    }
}

/// Whether the portion and the version's period share a day.
fn reaches(portion: &Option<Period>, row: &VersionRow) -> bool
    ensures { result ≡ meets_portion portion.now (version_row row.now) }
{
    match portion {
        None => true,
        Some(portion) => row.period.overlaps(*portion),
    }
}

/// Whether the condition holds of the version's values. Without one it does.
fn is_met_by(condition: &Option<Cond>, row: &VersionRow) -> bool
    ensures { result ≡ meets_any condition.now row.now.values }
{
    match condition {
        None => true,
        Some(condition) => holds(condition, row.values.as_slice()),
    }
}

/// Adds a row with the values over a period, if there is one.
fn push_part(
    alloc: Global,
    rows: &mut Vec<PeriodRow>,
    values: &Values,
    period: Option<Period>,
) -> Result<(), Memory>
    ensures { OnOk result
        (map plain_row rows.new.items ≡ map plain_row rows.old.items
        ++ row_over values.now period) }
{
    if let Some(period) = period {
        rows.push(PeriodRow {
            values: values.copy(alloc)?,
            period,
        })?;
    }
    Ok(())
}

/// Adds the old values before the portion, and from its end on.
fn push_leftovers(
    alloc: Global,
    rows: &mut Vec<PeriodRow>,
    portion: &Option<Period>,
    row: &VersionRow,
) -> Result<(), Memory>
    ensures { OnOk result
        (map plain_row rows.new.items ≡ map plain_row rows.old.items
        ++ leftovers portion.now (version_row row.now)) }
{
    let Some(portion) = portion else {
        return Ok(());
    };
    let (before, after) = row.period.minus(*portion);
    push_part(alloc, rows, &row.values, before)?;
    push_part(alloc, rows, &row.values, after)
}

/// Adds a row with the values on the version's days in the portion.
fn push_within(
    alloc: Global,
    rows: &mut Vec<PeriodRow>,
    portion: &Option<Period>,
    values: &Values,
    row: &VersionRow,
) -> Result<(), Memory>
    ensures { OnOk result
        (map plain_row rows.new.items ≡ map plain_row rows.old.items
        ++ within portion.now values.now (version_row row.now)) }
{
    match portion {
        None => push_part(alloc, rows, values, Some(row.period)),
        Some(portion) => push_part(alloc, rows, values, row.period.intersect(*portion)),
    }
}

/// A copy of the values.
fn copied(alloc: Global, values: &[Value]) -> Result<Vec<Value>, Memory>
    ensures { IfOk result (λ copies. copies.items ≡ values.now) }
{
    let mut copies = Vec::new(alloc);
    for value in values {
        copies.push(value.copy(alloc)?)?;
    }
    Ok(copies)
}

/// The values with those that SET gives.
fn set_values(alloc: Global, values: &Values, assignments: &[Assignment]) -> Result<Values, Memory>
    ensures { IfOk result (λ set. set ≡ with_set assignments.now values.now) }
{
    let mut changed = copied(alloc, values.as_slice())?;
    for set in assignments {
        if set.position < changed.len() {
            changed[set.position] = set.value.copy(alloc)?;
        }
    }
    Ok(Values::from_vec(changed))
}

/// Adds the rows that begin in the place of a version that the action touches.
pub fn push_replacements(
    alloc: Global,
    rows: &mut Vec<PeriodRow>,
    action: &Action,
    row: &VersionRow,
) -> Result<(), Memory>
    ensures { OnOk result
        (map plain_row rows.new.items ≡ map plain_row rows.old.items
        ++ replacements action.now (version_row row.now)) }
{
    match action {
        Action::Insert(_) => Ok(()),
        Action::Update(portion, assignments, _) => {
            push_leftovers(alloc, rows, portion, row)?;
            let values = set_values(alloc, &row.values, assignments.as_slice())?;
            push_within(alloc, rows, portion, &values, row)
        }
        Action::Delete(portion, _) => push_leftovers(alloc, rows, portion, row),
    }
}
