//! The set of a select: the rows of its references side by side, its conditions, its select list.

ghost use Rattle.std.specs.Prelude.{◌↔◌, ◌⊎◌, List, Contains, IfOk, OnOk};
ghost use Rattle.period_core.specs.declared.value.Value.{Value as ColumnValue};
ghost use Rattle.history_model.specs.OrdinaryQuery.{InSelect};
ghost use Rattle.snapshot_audit.specs.ActiveRows.{VisibleInActive};
ghost use Rattle.snapshot_audit.specs.Selections.{InRest, IsSelected};
ghost use Rattle.snapshot_audit.specs.Sets.{ListsSet};

use crate::combined_rows::{selected, side_by_side};
use crate::exclusion::is_ruled_out;
use crate::sets::sorted_once;
use catalog_core::resolved::{QueryReference, Select};
use period_core::{Memory, PeriodRow, Value, Values};
use std::alloc::Global;

// Adds the select list's row of a combined row, if that meets the conditions.
fn add_selected(
    alloc: Global,
    rows: &mut Vec<Values>,
    select: &Select,
    values: &[Value],
) -> Result<(), Memory>
    ensures { OnOk result ((row : List ColumnValue) →
        (Contains rows.new.items row
        ↔ (Contains rows.old.items row ⊎ IsSelected select.now values.now row))) }
{
    match selected(alloc, select, values)? {
        None => Ok(()),
        Some(row) => {
            rows.push(row)?;
            Ok(())
        }
    }
}

// Adds the select list's row of each combined row that begins with these values, continues with the
// rows of the references, and meets the conditions.
fn add_rest(
    alloc: Global,
    rows: &mut Vec<Values>,
    select: &Select,
    references: &[QueryReference],
    seen: &[Vec<&PeriodRow>],
    front: &[Value],
) -> Result<(), Memory>
    ensures { OnOk result ((row : List ColumnValue) →
        (Contains rows.new.items row
        ↔ (Contains rows.old.items row
        ⊎ InRest (VisibleInActive seen.now) select.now references.now front.now row))) }
{
    let [reference, more @ ..] = references else {
        return add_selected(alloc, rows, select, front);
    };
    let Some(active) = seen.get(reference.place) else {
        return Ok(());
    };
    for next in active.iter() {
        if is_ruled_out(select.conjuncts.as_slice(), front, next.values.as_slice()) {
            continue;
        }
        let values = side_by_side(alloc, front, next.values.as_slice())?;
        add_rest(alloc, rows, select, more, seen, values.as_slice())?;
    }
    Ok(())
}

/// The set of a select by the active rows, in ascending order, each list of values once.
pub(crate) fn selected_set(
    alloc: Global,
    select: &Select,
    seen: &[Vec<&PeriodRow>],
) -> Result<Vec<Values>, Memory>
    ensures { IfOk result
        (λ set. ListsSet (InSelect (VisibleInActive seen.now) select.now) set.items) }
{
    let mut rows = Vec::new(alloc);
    add_rest(
        alloc,
        &mut rows,
        select,
        select.references.as_slice(),
        seen,
        &[],
    )?;
    sorted_once(rows)
}
