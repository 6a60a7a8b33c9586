//! Rows of a reference of a select, looked up after each of a few rows of another: the conditions
//! leave a range of keys after each.

ghost use Rattle.std.specs.Prelude.{◌≡◌, IfOk, IfSome, length, min};
ghost use Rattle.history_model.specs.Histories.{History};
ghost use Rattle.history_model.specs.OrdinaryQuery.{VisibleInHistory};
ghost use Rattle.temporal_model.specs.Snapshot.{Equivalent};
ghost use Rattle.script_engine.specs.engine.Needed.{HaveRowFrom, IsPrunedAfter, SeesWidth};
ghost use Rattle.script_engine.specs.engine.Stored.{TablesRepresent};

use crate::engine::chained::read_chained;
use crate::engine::conditions::Conditions;
use crate::engine::in_memory::TablesInMemory;
use crate::engine::reading::Access;
use catalog_core::resolved::QueryReference;
use coalesce_core::coalesce;
use period_core::{Memory, PeriodRow, Value, Window};
use period_keys::{KeyRange, RowConditions, RowRange, range_of_key_after};
use std::alloc::Global;

/// The most rows after each of which the rows of another reference are looked up.
const FEW: usize = 16;

/// The most rows that are looked up without a look at the size of their table.
const MANY: usize = 256;

/// The number of positions at which each of these rows has a given value.
fn fixed_count(rows: &RowRange) -> usize
    ensures { result ≡ min (length rows.now.positions) (length rows.now.range.leading.items) }
{
    match rows.fixed() {
        Some(fixed) => fixed.positions.len(),
        None => 0,
    }
}

/// Whether rows are found by more than others: by more values of the key at these positions, or
/// else by the columns of a reference, if the others are found by no value of either.
fn is_narrower(rows: &RowRange, others: &RowRange, positions: &[usize]) -> bool {
    let of_key = others.positions.as_slice() == positions;
    let fixed = if of_key { fixed_count(others) } else { 0 };
    if rows.positions.as_slice() == positions {
        return fixed_count(rows) > fixed;
    }
    !rows.range.is_all() && of_key && fixed == 0
}

/// The conditions on a row in the combined rows that have known values from the place `at` on.
#[derive(Clone, Copy)]
struct KnownConditions<'a> {
    conditions: &'a Conditions<'a>,
    known: &'a [Value],
    at: usize,
}

impl RowConditions for KnownConditions<'_> {
    ghost use Rattle.period_keys.specs.FixedKeys.{IsRangeAfter};

    ghost IsRange = { λ these positions range. IsRangeAfter these.conditions.now.conjuncts.now
        these.known.now these.at these.conditions.now.start these.conditions.now.width positions
        range };

    fn range_at(&self, alloc: Global, positions: &[usize]) -> Result<KeyRange, Memory> {
        let Conditions {
            conjuncts,
            start,
            width,
            ..
        } = *self.conditions;
        range_of_key_after(
            alloc, conjuncts, self.known, self.at, start, width, positions,
        )
    }
}

/// Rows with the same snapshots as these, which were looked up so many times. After several times
/// a row may have been found again.
fn once_each(alloc: Global, rows: Vec<PeriodRow>, times: usize) -> Result<Vec<PeriodRow>, Memory>
    ensures { IfOk result (λ once. Equivalent rows.items once.items) }
{
    if times > 1 {
        return coalesce(alloc, rows);
    }
    Ok(rows)
}

/// The number of keys of a reference's table, and of its ended versions if the reference may see
/// them.
fn size_of(tables: &TablesInMemory, reference: &QueryReference) -> usize {
    let Some(table) = tables.table(reference.table) else {
        return 0;
    };
    let ended = match reference.window {
        Window::Now => 0,
        _ => table.ended.len(),
    };
    table.current.rows().groups().len().saturating_add(ended)
}

/// Whether a reference sees few rows whatever the conditions are.
pub fn sees_few(tables: &TablesInMemory, reference: &QueryReference) -> bool {
    size_of(tables, reference) <= FEW
}

/// Whether it is more work to go on looking rows up than to read their table, of this size, once:
/// many were found after `seen` rows of a list, and at that rate all rows of the list would find as
/// many as the table has, or more, since several of them can have one key.
fn are_too_many(found: usize, seen: usize, all: usize, size: usize) -> bool {
    found > MANY && found.saturating_mul(all) >= size.saturating_mul(seen)
}

/// The rows of a reference's table that are needed in the combined rows that have those of one of
/// the rows `previous` from the place `at` on: the conditions leave a range of keys after each,
/// through which they are looked up. None if that is more work than to read them once: if the rows
/// `previous` are many, or those looked up, or if the conditions alone, which leave the rows
/// `alone`, fix as much of a key.
pub fn looked_up(
    alloc: Global,
    tables: &mut TablesInMemory,
    conditions: &Conditions,
    alone: &RowRange,
    at: usize,
    previous: &[PeriodRow],
) -> Result<Option<Vec<PeriodRow>>, Memory>
    ensures needed { IfOk result (λ found. IfSome found (λ rows. (history : History)
        → TablesRepresent history tables.old
        → SeesWidth history conditions.now.reference.now conditions.now.width
        → IsPrunedAfter (HaveRowFrom previous.now at) conditions.now.conjuncts.now
        conditions.now.start
        (λ day. VisibleInHistory history day conditions.now.reference.now) rows.items)) }
    ensures same { tables.new ≡ tables.old }
{
    if previous.len() > FEW {
        return Ok(None);
    }
    let reference = conditions.reference;
    let size = size_of(tables, reference);
    let mut rows = Vec::new(alloc);
    for seen in 0..previous.len() {
        let known = previous[seen].values.as_slice();
        let after = KnownConditions {
            conditions,
            known,
            at,
        };
        let left = tables.rows_left(alloc, reference.table, &after)?;
        let positions = tables.key_positions(reference.table);
        let too_many = are_too_many(rows.len(), seen, previous.len(), size);
        if too_many || !is_narrower(&left, alone, positions) {
            return Ok(None);
        }
        let access = Access::of(reference, left);
        read_chained(alloc, tables, &access, conditions, &mut rows)?;
    }
    Ok(Some(once_each(alloc, rows, previous.len())?))
}
