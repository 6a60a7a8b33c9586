//! The rows of a select on each day, as rows over periods.

ghost use Rattle.std.specs.Prelude.{◌≡◌, ◌↔◌, ◌<◌, ℤ, List, IfOk, length};
ghost use Rattle.period_core.specs.Calendar.{first_day, last_day};
ghost use Rattle.period_core.specs.declared.value.Value.{Value as ColumnValue};
ghost use Rattle.temporal_model.specs.Snapshot.{InSnapshot};
ghost use Rattle.history_model.specs.OrdinaryQuery.{VisibleInTables};
ghost use Rattle.snapshot_audit.specs.Differences.{InSelectOn};
ghost use Rattle.snapshot_audit.specs.Selections.{InRestOn};
ghost use Rattle.snapshot_audit.specs.Verdicts.{AgreesAlways};

use crate::combined_rows::CombinedOutput;
use crate::joins::joined;
use catalog_core::resolved::{QueryReference, Select, Tables};
use period_core::{Day, Memory, Period, PeriodRow, Values};
use std::alloc::Global;
use std::slice;

// All days that a period can cover.
fn all_days() -> Period
    ensures start { result.start ≡ first_day }
    ensures end { result.end ≡ last_day }
{
    let last = Day::new(2_932_896).unwrap();
    Period::new(Day::first(), last).unwrap()
}

// Rows that hold on each day what the select gives by the combined rows that begin with values of
// the first rows, and continue with rows of the references.
fn rest_rows(
    alloc: Global,
    select: &Select,
    references: &[QueryReference],
    tables: &Tables,
    fronts: &[PeriodRow],
) -> Result<Vec<PeriodRow>, Memory>
    requires { 0 < length references.now }
    ensures { IfOk result (λ rows. (day : ℤ) (row : List ColumnValue) →
        (InSnapshot rows.items day row ↔ InRestOn (VisibleInTables tables.now) select.now
        references.now fronts.now day row)) }
{
    let [reference, more @ ..] = references else {
        return Ok(Vec::new(alloc));
    };
    let others = tables.rows_for(reference);
    if more.is_empty() {
        return joined(alloc, select, CombinedOutput::SelectList, fronts, others);
    }
    let rows = joined(alloc, select, CombinedOutput::Front, fronts, others)?;
    rest_rows(alloc, select, more, tables, rows.as_slice())
}

/// Rows that hold on each day what the select gives on it.
pub(crate) fn select_rows(
    alloc: Global,
    select: &Select,
    tables: &Tables,
) -> Result<Vec<PeriodRow>, Memory>
    ensures { IfOk result
        (λ rows. AgreesAlways (InSelectOn tables.now select.now) rows.items) }
{
    let front = PeriodRow {
        values: Values::from_vec(Vec::new(alloc)),
        period: all_days(),
    };
    let references = select.references.as_slice();
    rest_rows(alloc, select, references, tables, slice::from_ref(&front))
}
