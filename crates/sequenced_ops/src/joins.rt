//! Joins: a sweep over the rows of both sides in the order of their keys and first days.

ghost use Rattle.std.specs.Prelude.{◌≡◌, ◌↔◌, ◌⊎◌, ◌++◌, ◌<ℤ◌, [], List, Contains, AllPairs};
ghost use Rattle.std.specs.Prelude.{IfOk, OnOk, IsTrue};
ghost use Rattle.period_core.specs.declared.row.PeriodRow.{PeriodRow as Row};
ghost use Rattle.sequenced_ops.specs.declared.keyed.KeyedRow.{KeyedRow};
ghost use Rattle.sequenced_ops.specs.Joining.{Adds, Follows, InEqualPairs, InPairs};
ghost use Rattle.sequenced_ops.specs.Joining.{InPairsWith, HasExpired, PairHolds, SidedPair};
ghost use Rattle.sequenced_ops.specs.Outputs.{GivesSome};
ghost use Rattle.sequenced_ops.specs.Planning.{IsPruned};

use crate::conjuncts::is_ruled_out;
use crate::equalities::{Equality, columns_of};
use crate::keyed::{KeyedRow, Side, push_keyed};
use crate::outputs::{JoinOutput, given, select_batch};
use catalog_core::Cond;
use period_core::{Memory, PeriodRow, Values};
use std::alloc::Global;

// The values of both, one after the other.
fn joined(alloc: Global, first: &Values, second: &Values) -> Result<Values, Memory>
    ensures { IfOk result (λ both. both ≡ first.now ++ second.now) }
{
    let length = first
        .as_slice()
        .len()
        .saturating_add(second.as_slice().len());
    let mut both = Vec::with_capacity(alloc, length)?;
    for value in first.as_slice() {
        both.push(value.copy(alloc)?)?;
    }
    for value in second.as_slice() {
        both.push(value.copy(alloc)?)?;
    }
    Ok(Values::from_vec(both))
}

// Adds the pair of two rows of the same key on the days of both, unless the conditions rule it out.
fn push_joined(
    alloc: Global,
    conjuncts: &[Cond],
    rows: &mut Vec<PeriodRow>,
    first: &KeyedRow,
    second: &KeyedRow,
) -> Result<(), Memory>
    requires { first.now.key ≡ second.now.key }
    ensures { OnOk result
        (Adds conjuncts.now (PairHolds first.now second.now) rows.old.items rows.new.items) }
{
    let Some(period) = first.period.intersect(second.period) else {
        return Ok(());
    };
    let values = joined(alloc, first.values, second.values)?;
    if is_ruled_out(conjuncts, 0, values.as_slice()) {
        return Ok(());
    }
    rows.push(PeriodRow { values, period })?;
    Ok(())
}

// Adds the pair of the row and one of the other side, the left side's first.
fn push_pair(
    alloc: Global,
    conjuncts: &[Cond],
    rows: &mut Vec<PeriodRow>,
    row: &KeyedRow,
    other: &KeyedRow,
) -> Result<(), Memory>
    requires { other.now.key ≡ row.now.key }
    ensures { OnOk result (Adds conjuncts.now (SidedPair row.now.side row.now other.now)
        rows.old.items rows.new.items) }
{
    match row.side {
        Side::Left => push_joined(alloc, conjuncts, rows, row, other),
        Side::Right => push_joined(alloc, conjuncts, rows, other, row),
    }
}

// Whether the other row has the row's key.
fn has_key_of(other: &KeyedRow, row: &KeyedRow) -> bool
    ensures { IsTrue result ↔ (other.now.key ≡ row.now.key) }
{
    other.key.lead == row.key.lead && other.key.rest == row.key.rest
}

// Whether the other row has the row's key, and days from the row's first day on.
fn is_still_active(other: &KeyedRow, row: &KeyedRow) -> bool
    ensures { IsTrue result
        ↔ ((other.now.key ≡ row.now.key) × (row.now.period.start <ℤ other.now.period.end)) }
{
    has_key_of(other, row) && row.period.start < other.period.end
}

// Adds the row's pairs with the active rows of the other side. What it gives are those that a later
// row can meet.
fn meet<'a>(
    alloc: Global,
    conjuncts: &[Cond],
    rows: &mut Vec<PeriodRow>,
    row: &KeyedRow<'a>,
    active: Vec<KeyedRow<'a>>,
) -> Result<Vec<KeyedRow<'a>>, Memory>
    ensures rows { OnOk result (Adds conjuncts.now (InPairsWith row.now active.entry.items)
        rows.old.items rows.new.items) }
    ensures kept { IfOk result (λ left. (other : KeyedRow) →
        Contains left.items other → Contains active.entry.items other) }
    ensures gone { IfOk result (λ left. (other : KeyedRow) →
        Contains active.entry.items other
        → (Contains left.items other ⊎ HasExpired other row.now)) }
{
    let mut left = Vec::new(alloc);
    for other in active {
        if is_still_active(&other, row) {
            push_pair(alloc, conjuncts, rows, row, &other)?;
            left.push(other)?;
        }
    }
    Ok(left)
}

// The output for the pairs of rows of both sides that have the same key and a day, if none
// comes before an earlier one, but for those that the conditions rule out.
fn pairs_of(
    alloc: Global,
    conjuncts: &[Cond],
    output: JoinOutput,
    sorted: Vec<KeyedRow>,
) -> Result<Vec<PeriodRow>, Memory>
    requires { AllPairs Follows sorted.items }
    ensures { IfOk result (λ rows. GivesSome
        (λ (pairs : List Row). Adds conjuncts.now (InPairs sorted.entry.items) [] pairs)
        conjuncts.now output.entry rows.items) }
{
    let mut pairs = Vec::new(alloc);
    let mut selected = Vec::new(alloc);
    let mut lefts = Vec::new(alloc);
    let mut rights = Vec::new(alloc);
    for row in sorted {
        selected = select_batch(alloc, conjuncts, output, selected, &mut pairs)?;
        match row.side {
            Side::Left => {
                rights = meet(alloc, conjuncts, &mut pairs, &row, rights)?;
                lefts.push(row)?;
            }
            Side::Right => {
                lefts = meet(alloc, conjuncts, &mut pairs, &row, lefts)?;
                rights.push(row)?;
            }
        }
    }
    given(alloc, conjuncts, output, selected, pairs)
}

/// Joins rows that have the same values at the columns of each equality,
/// but for pairs that the conditions rule out; without equalities, all other pairs. A pair has on
/// each day the values of a left row, followed by those of a right row.
pub fn join_equal(
    alloc: Global,
    left: &[PeriodRow],
    right: &[PeriodRow],
    equalities: &[Equality],
    conjuncts: &[Cond],
    output: JoinOutput,
) -> Result<Vec<PeriodRow>, Memory>
    ensures { IfOk result (λ rows. GivesSome
        (IsPruned conjuncts.now 0 (InEqualPairs equalities.now left.now right.now))
        conjuncts.now output.entry rows.items) }
{
    let left_columns = columns_of(alloc, equalities, &Side::Left)?;
    let right_columns = columns_of(alloc, equalities, &Side::Right)?;
    let mut sorted = Vec::new(alloc);
    push_keyed(
        alloc,
        &mut sorted,
        left,
        left_columns.as_slice(),
        Side::Left,
    )?;
    push_keyed(
        alloc,
        &mut sorted,
        right,
        right_columns.as_slice(),
        Side::Right,
    )?;
    sorted.sort()?;
    pairs_of(alloc, conjuncts, output, sorted)
}
