//! Projections: the values at given positions, over the same periods.

ghost use Rattle.std.specs.Prelude.{◌≡◌, ◌↔◌, ◌⊎◌, ℤ, List, OnErr, OnOk, true};
ghost use Rattle.period_core.specs.DaySets.{InPeriod};
ghost use Rattle.period_core.specs.declared.value.Value.{Value};
ghost use Rattle.temporal_model.specs.Snapshot.{InSnapshot};
ghost use Rattle.sequenced_ops.specs.Operations.{AddsProjection, ReadsColumns};

use crate::columns::read_columns;
use period_core::{Memory, PeriodRow};
use std::alloc::Global;

/// Adds the values at these positions of the row, over its period. An error leaves the rows as they
/// were.
pub fn project_into(
    alloc: Global,
    rows: &mut Vec<PeriodRow>,
    row: &PeriodRow,
    columns: &[usize],
) -> Result<(), Memory>
    ensures added { OnOk result ((day : ℤ) (values : List Value) →
        (InSnapshot rows.new.items day values
        ↔ (InSnapshot rows.old.items day values
        ⊎ (ReadsColumns columns.now row.now.values values
        × InPeriod row.now.period day)))) }
    ensures behind { OnOk result
        (AddsProjection (λ _. true) columns.now row.now rows.old.items rows.new.items) }
    ensures kept { OnErr result (rows.new.items ≡ rows.old.items) }
{
    if let Some(values) = read_columns(alloc, columns, row.values.as_slice())? {
        rows.push(PeriodRow {
            values,
            period: row.period,
        })?;
    }
    Ok(())
}
