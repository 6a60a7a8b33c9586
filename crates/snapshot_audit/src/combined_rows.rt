//! Combined rows: the values of rows side by side, the conditions, the select list.

ghost use Rattle.std.specs.Prelude.{◌≡◌, ◌++◌, List, IfOk, MatchOption};
ghost use Rattle.period_core.specs.declared.value.Value.{Value as ColumnValue};
ghost use Rattle.history_model.specs.OrdinaryQuery.{IsProjection, meets_all};
ghost use Rattle.snapshot_audit.specs.Selections.{IsKept, IsSelected};

use catalog_core::resolved::Select;
use catalog_core::{AnswerColumn, Cond, holds};
use period_core::{Memory, Value, Values};
use std::alloc::Global;

/// The values that a select takes of combined rows.
#[derive(Clone, Copy)]
pub(crate) enum CombinedOutput {
    /// All values, which the values of further references follow.
    Front,
    /// The select list's row of those that meet the conditions.
    SelectList,
}

// Whether each of the conditions holds of the values.
fn meets_all(conjuncts: &[Cond], values: &[Value]) -> bool
    ensures { result ≡ meets_all conjuncts.now values.now }
{
    for condition in conjuncts {
        if !holds(condition, values) {
            return false;
        }
    }
    true
}

// The values of the select list: `None` if one of its items has no value at its position.
fn item_values(
    alloc: Global,
    items: &[AnswerColumn],
    values: &[Value],
) -> Result<Option<Values>, Memory>
    ensures { IfOk result (λ found. MatchOption found
        ((row : List ColumnValue) → IsProjection items.now values.now row → ⊥)
        (IsProjection items.now values.now)) }
{
    let mut row = Vec::with_capacity(alloc, items.len())?;
    for item in items {
        let Some(value) = values.get(item.position) else {
            return Ok(None);
        };
        row.push(value.copy(alloc)?)?;
    }
    Ok(Some(Values::from_vec(row)))
}

/// The select list's row of a combined row: `None` if that does not meet the conditions.
pub(crate) fn selected(
    alloc: Global,
    select: &Select,
    values: &[Value],
) -> Result<Option<Values>, Memory>
    ensures { IfOk result (λ found. MatchOption found
        ((row : List ColumnValue) → IsSelected select.now values.now row → ⊥)
        (IsSelected select.now values.now)) }
{
    if !meets_all(select.conjuncts.as_slice(), values) {
        return Ok(None);
    }
    item_values(alloc, select.items.as_slice(), values)
}

/// The values of both, one after the other.
pub(crate) fn side_by_side(
    alloc: Global,
    first: &[Value],
    second: &[Value],
) -> Result<Values, Memory>
    ensures { IfOk result (λ both. both ≡ first.now ++ second.now) }
{
    let mut both = Vec::with_capacity(alloc, first.len().saturating_add(second.len()))?;
    for value in first {
        both.push(value.copy(alloc)?)?;
    }
    for value in second {
        both.push(value.copy(alloc)?)?;
    }
    Ok(Values::from_vec(both))
}

/// The values that are taken of a combined row, if any.
pub(crate) fn kept(
    alloc: Global,
    select: &Select,
    output: CombinedOutput,
    values: Values,
) -> Result<Option<Values>, Memory>
    ensures { IfOk result (λ found. MatchOption found
        ((row : List ColumnValue) → IsKept select.now output values row → ⊥)
        (IsKept select.now output values)) }
{
    match output {
        CombinedOutput::Front => Ok(Some(values)),
        CombinedOutput::SelectList => selected(alloc, select, values.as_slice()),
    }
}
