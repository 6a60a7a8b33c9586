//! The rows that one table reference of a select has to see: those that its conditions leave, or
//! those that are looked up after a list that another reference sees.

ghost use Rattle.std.specs.Prelude.{◌≡◌, IfOk, IfSome, IsSome, true};
ghost use Rattle.history_model.specs.Histories.{History};
ghost use Rattle.period_keys.specs.FixedKeys.{IsRangeWithin};
ghost use Rattle.script_engine.specs.engine.Needed.{IsNeeded, IsNeededAfter, SeesWidth};
ghost use Rattle.script_engine.specs.engine.Stored.{TablesRepresent};

use crate::engine::chained::read_chained;
use crate::engine::conditions::Conditions;
use crate::engine::in_memory::TablesInMemory;
use crate::engine::looked_up_rows::{looked_up, sees_few};
use crate::engine::reading::Access;
use period_core::{Items, Memory, PeriodRow};
use period_keys::RowRange;
use std::alloc::Global;

/// The rows that a table reference has to see, of those of its table that its conditions leave.
fn needed_by(
    alloc: Global,
    tables: &mut TablesInMemory,
    conditions: &Conditions,
    left: RowRange,
) -> Result<Vec<PeriodRow>, Memory>
    ensures needed { IfOk result (λ rows. (history : History)
        → TablesRepresent history tables.old
        → SeesWidth history conditions.now.reference.now conditions.now.width
        → IsRangeWithin conditions.now.conjuncts.now conditions.now.start conditions.now.width
        left.positions left.range
        → IsNeeded history conditions.now.conjuncts.now conditions.now.start
        conditions.now.reference.now rows.items) }
    ensures same { tables.new ≡ tables.old }
{
    let access = Access::of(conditions.reference, left);
    let mut rows = Vec::new(alloc);
    read_chained(alloc, tables, &access, conditions, &mut rows)?;
    Ok(rows)
}

/// Rows that a table reference has to see, looked up after one of the lists that other references
/// see: the last that leaves few. The values of a list's row are known from its start on. None if
/// they are looked up after no list.
fn looked_up_after(
    alloc: Global,
    tables: &mut TablesInMemory,
    conditions: &Conditions,
    alone: &RowRange,
    starts: &[usize],
    lists: &[Option<Items<PeriodRow>>],
) -> Result<Option<Vec<PeriodRow>>, Memory>
    ensures needed { IfOk result (λ found. IfSome found (λ rows. (history : History)
        → TablesRepresent history tables.old
        → SeesWidth history conditions.now.reference.now conditions.now.width
        → IsNeededAfter history starts.now lists.now conditions.now.conjuncts.now
        conditions.now.start conditions.now.reference.now rows.items)) }
    ensures same { tables.new ≡ tables.old }
{
    for i in 0..starts.len() {
        let last = starts.len() - 1 - i;
        let Some(Some(known)) = lists.get(last) else {
            continue;
        };
        let previous = known.as_slice();
        let found = looked_up(alloc, tables, conditions, alone, starts[last], previous)?;
        if let Some(rows) = found {
            return Ok(Some(rows));
        }
    }
    Ok(None)
}

/// Rows that a table reference has to see, if others see the lists that are read: those that are
/// looked up after one of these, or else those that its conditions leave. None if these are all of
/// its table, which has many, and it is not to be read as a `whole`.
pub fn needed_after(
    alloc: Global,
    tables: &mut TablesInMemory,
    conditions: &Conditions,
    starts: &[usize],
    lists: &[Option<Items<PeriodRow>>],
    whole: bool,
) -> Result<Option<Vec<PeriodRow>>, Memory>
    ensures needed { IfOk result (λ found. IfSome found (λ rows. (history : History)
        → TablesRepresent history tables.old
        → SeesWidth history conditions.now.reference.now conditions.now.width
        → IsNeededAfter history starts.now lists.now conditions.now.conjuncts.now
        conditions.now.start conditions.now.reference.now rows.items)) }
    ensures whole { whole ≡ true → IfOk result IsSome }
    ensures same { tables.new ≡ tables.old }
{
    let reference = conditions.reference;
    let alone = tables.rows_left(alloc, reference.table, conditions)?;
    let found = looked_up_after(alloc, tables, conditions, &alone, starts, lists)?;
    if let Some(rows) = found {
        return Ok(Some(rows));
    }
    if !whole && alone.range.is_all() && !sees_few(tables, reference) {
        return Ok(None);
    }
    Ok(Some(needed_by(alloc, tables, conditions, alone)?))
}
