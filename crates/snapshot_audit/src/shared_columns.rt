//! The columns by which two sides are joined, as the equalities between them name them.

ghost use Rattle.std.specs.Prelude.{◌≡◌, IfOk, IfSome, OnOk, true};
ghost use Rattle.catalog_core.specs.Conditions.{compares, meets};
ghost use Rattle.snapshot_audit.specs.Keys.{HaveWidth, IsSameAt, ReadsMore};
ghost use Rattle.snapshot_audit.specs.Pairs.{AreShared, ReadSame};

use catalog_core::resolved::Select;
use catalog_core::{Comparand, CompareValues, Cond};
use period_core::{Memory, PeriodRow};
use sql_statements::{Comparison, Tree};
use std::alloc::Global;

/// Columns of both sides, one by one, whose values are the same in each pair of rows that can meet
/// the conditions.
#[derive(Drop)]
pub(crate) struct SharedColumns {
    /// The positions in a row of the first side.
    pub(crate) first: Vec<usize>,
    /// The positions in a row of the second side.
    pub(crate) second: Vec<usize>,
}

// The number of values of each row, if all have the same number.
fn width_of(rows: &[PeriodRow]) -> Option<usize>
    ensures { IfSome result (λ width. HaveWidth width rows.now) }
{
    let width = rows.first()?.values.as_slice().len();
    for row in rows {
        if row.values.as_slice().len() != width {
            return None;
        }
    }
    Some(width)
}

// Adds the columns of two positions, if the first is one of the first side, whose rows have
// `width` values, and the second one of the second side, whose rows have `more`.
fn add_columns(
    columns: &mut SharedColumns,
    left: usize,
    right: usize,
    width: usize,
    more: usize,
) -> Result<(), Memory>
    ensures { OnOk result
        (ReadsMore width more (IsSameAt left right) columns.old columns.new) }
{
    if left < width && width <= right && right - width < more {
        columns.first.push(left)?;
        columns.second.push(right - width)?;
    }
    Ok(())
}

// Adds the columns of an equality.
fn add_test(
    columns: &mut SharedColumns,
    test: &CompareValues,
    width: usize,
    more: usize,
) -> Result<(), Memory>
    ensures { OnOk result (ReadsMore width more (λ values. compares values test.now ≡ true)
        columns.old columns.new) }
{
    match (test.comparison, &test.left, &test.right) {
        (Comparison::Equal, Comparand::Position(left), Comparand::Position(right)) => {
            add_columns(columns, *left, *right, width, more)?;
            add_columns(columns, *right, *left, width, more)
        }
        _ => Ok(()),
    }
}

// Adds the columns of a condition that is an equality.
fn add_condition(
    columns: &mut SharedColumns,
    condition: &Cond,
    width: usize,
    more: usize,
) -> Result<(), Memory>
    ensures { OnOk result (ReadsMore width more (λ values. meets condition.now values ≡ true)
        columns.old columns.new) }
{
    match condition {
        Tree::Test(test) => add_test(columns, test, width, more),
        _ => Ok(()),
    }
}

// The columns of the equalities between two sides, whose rows have `width` and `more` values.
fn columns_between(
    alloc: Global,
    select: &Select,
    width: usize,
    more: usize,
) -> Result<SharedColumns, Memory>
    ensures { IfOk result (ReadSame select.now width more) }
{
    let mut columns = SharedColumns {
        first: Vec::new(alloc),
        second: Vec::new(alloc),
    };
    for condition in select.conjuncts.as_slice() {
        add_condition(&mut columns, condition, width, more)?;
    }
    Ok(columns)
}

/// The columns of the equalities between both sides among the conditions. Positions tell the side
/// only if all rows of each side have the same number of values; else there are none.
pub(crate) fn shared_columns(
    alloc: Global,
    select: &Select,
    rows: &[PeriodRow],
    others: &[PeriodRow],
) -> Result<SharedColumns, Memory>
    ensures { IfOk result (λ columns. AreShared select.now rows.now others.now
        columns.first.items columns.second.items) }
{
    match (width_of(rows), width_of(others)) {
        (Some(width), Some(more)) => columns_between(alloc, select, width, more),
        _ => Ok(SharedColumns {
            first: Vec::new(alloc),
            second: Vec::new(alloc),
        }),
    }
}
