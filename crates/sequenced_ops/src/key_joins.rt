//! Joins: by the equalities of the conditions, with the conditions on each pair.

ghost use Rattle.std.specs.Prelude.{◌≡◌, ◌++◌, List, IfOk, IfSome, OnOk, length};
ghost use Rattle.std.specs.Prelude.{true};
ghost use Rattle.period_core.specs.declared.value.Value.{Value as ColumnValue};
ghost use Rattle.catalog_core.specs.Conditions.{compares};
ghost use Rattle.sequenced_ops.specs.Operations.{InJoin, InPairs, SnapshotsAre};
ghost use Rattle.sequenced_ops.specs.Joining.{IsEqual};
ghost use Rattle.sequenced_ops.specs.Outputs.{GivesSome};
ghost use Rattle.sequenced_ops.specs.Planning.{AddsKeys, AreKeys, HasWidth, IsColumnPair};
ghost use Rattle.sequenced_ops.specs.Planning.{IsPruned};

use crate::equalities::Equality;
use crate::filters::filter;
use crate::joins::join_equal;
use crate::outputs::JoinOutput;
use crate::pruning::{copy_pruned, rules_some_out};
use catalog_core::{Comparand, CompareValues, Cond};
use period_core::{Memory, PeriodRow};
use sql_statements::{Comparison, Tree};
use std::alloc::Global;
use std::slice;

/// The number of values of each row, if all have the same number.
fn width_of(rows: &[PeriodRow]) -> Option<usize>
    ensures { IfSome result (λ width. HasWidth width rows.now) }
{
    let width = rows.first()?.values.as_slice().len();
    for row in rows {
        if row.values.as_slice().len() != width {
            return None;
        }
    }
    Some(width)
}

/// The equality of two positions, if the first is one of the left side, whose rows have
/// `width` values, and the second one of the right side, whose rows have `more`.
fn column_pair(left: usize, right: usize, width: usize, more: usize) -> Option<Equality>
    ensures { IfSome result (IsColumnPair width more left right) }
{
    if left < width && width <= right && right - width < more {
        return Some(Equality {
            left,
            right: right - width,
        });
    }
    None
}

/// The equality that a comparison of two positions asks for, if one is of each side.
fn equality_of(test: &CompareValues, width: usize, more: usize) -> Option<Equality>
    ensures { IfSome result (λ equality. (first second rest : List ColumnValue)
        → length first ≡ width → length second ≡ more
        → compares ((first ++ second) ++ rest) test.now ≡ true → IsEqual first second equality) }
{
    match (test.comparison, &test.left, &test.right) {
        (Comparison::Equal, Comparand::Position(left), Comparand::Position(right)) => {
            match column_pair(*left, *right, width, more) {
                Some(pair) => Some(pair),
                None => column_pair(*right, *left, width, more),
            }
        }
        _ => None,
    }
}

/// Adds the equalities between both sides that each row that meets the condition must meet: those
/// of its test, or of each part of an AND; none of an OR of several parts.
fn push_equalities(
    condition: &Cond,
    width: usize,
    more: usize,
    keys: &mut Vec<Equality>,
) -> Result<(), Memory>
    ensures { OnOk result (AddsKeys condition.now width more keys.old.items keys.new.items) }
{
    match condition {
        Tree::Or(first, others) => {
            if others.is_empty() {
                return push_equalities(first, width, more, keys);
            }
            Ok(())
        }
        Tree::And(first, others) => {
            push_equalities(first, width, more, keys)?;
            for part in others {
                push_equalities(part, width, more, keys)?;
            }
            Ok(())
        }
        Tree::Not(_) => Ok(()),
        Tree::Test(test) => {
            if let Some(equality) = equality_of(test, width, more) {
                keys.push(equality)?;
            }
            Ok(())
        }
    }
}

/// The equalities between both sides among the conditions.
fn equalities_of(
    alloc: Global,
    conjuncts: &[Cond],
    width: usize,
    more: usize,
) -> Result<Vec<Equality>, Memory>
    ensures { IfOk result (λ keys. AreKeys conjuncts.now width more keys.items) }
{
    let mut keys = Vec::new(alloc);
    for condition in conjuncts {
        push_equalities(condition, width, more, &mut keys)?;
    }
    Ok(keys)
}

/// Joins the rows of both sides, but for pairs that differ in an equality between the
/// sides, and for those that the conditions rule out. Rows of the right side that the conditions
/// rule out by themselves are left out before.
fn join_by_keys(
    alloc: Global,
    conjuncts: &[Cond],
    output: JoinOutput,
    rows: &[PeriodRow],
    others: &[PeriodRow],
    width: usize,
    more: usize,
) -> Result<Vec<PeriodRow>, Memory>
    requires left { HasWidth width rows.now }
    requires right { HasWidth more others.now }
    ensures { IfOk result (λ next. GivesSome
        (IsPruned conjuncts.now 0 (InPairs rows.now others.now))
        conjuncts.now output.entry next.items) }
{
    let keys = equalities_of(alloc, conjuncts, width, more)?;
    if rules_some_out(conjuncts, width, others) {
        let kept = copy_pruned(alloc, conjuncts, width, others)?;
        return join_equal(
            alloc,
            rows,
            kept.as_slice(),
            keys.as_slice(),
            conjuncts,
            output,
        );
    }
    join_equal(alloc, rows, others, keys.as_slice(), conjuncts, output)
}

/// Joins the next reference's rows to those joined so far, dropping pairs that cannot
/// meet the conditions. Equalities are used only if all rows of each side have the same number of
/// values.
pub fn join_next(
    alloc: Global,
    conjuncts: &[Cond],
    output: JoinOutput,
    rows: &[PeriodRow],
    others: &[PeriodRow],
) -> Result<Vec<PeriodRow>, Memory>
    ensures { IfOk result (λ next. GivesSome
        (IsPruned conjuncts.now 0 (InPairs rows.now others.now))
        conjuncts.now output.entry next.items) }
{
    if let Some(width) = width_of(rows) {
        if let Some(more) = width_of(others) {
            return join_by_keys(alloc, conjuncts, output, rows, others, width, more);
        }
    }
    join_equal(alloc, rows, others, &[], conjuncts, output)
}

/// On each day the values of a left row, followed by those of a right row, for all pairs of rows
/// that meet the condition. If it asks that a column of the left side equals one of the right,
/// as a whole or in its outermost AND, only pairs of rows with the same values there are looked at.
pub fn join(
    alloc: Global,
    left: &[PeriodRow],
    right: &[PeriodRow],
    condition: &Cond,
) -> Result<Vec<PeriodRow>, Memory>
    ensures { IfOk result (λ rows.
        SnapshotsAre (InJoin condition.now left.now right.now) rows.items) }
{
    let conjuncts = slice::from_ref(condition);
    let pairs = join_next(alloc, conjuncts, JoinOutput::Pairs, left, right)?;
    filter(alloc, pairs, condition)
}
