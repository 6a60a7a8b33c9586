//! Rows that cannot go on to a combined row that meets the conditions: an equality fails already.

ghost use Rattle.std.specs.Prelude.{◌≡◌, ◌++◌, List, Some, IfSome, IsTrue, false, slice_get};
ghost use Rattle.std.specs.Ordering.{is_eq};
ghost use Rattle.period_core.specs.Order.{value_cmp};
ghost use Rattle.period_core.specs.declared.value.Value.{Value as ColumnValue};
ghost use Rattle.catalog_core.specs.Conditions.{compares, meets, side_value};
ghost use Rattle.history_model.specs.OrdinaryQuery.{meets_all};

use catalog_core::{Comparand, CompareValues, Cond};
use period_core::Value;
use sql_statements::{Comparison, Tree};
use std::cmp::Ordering;

// The value at a position of the combined rows that begin with these values and then those: `None`
// if it comes later.
fn value_among<'x>(position: usize, front: &'x [Value], next: &'x [Value]) -> Option<&'x Value>
    ensures { IfSome result (λ value. (rest : List ColumnValue) →
        slice_get ((front.now ++ next.now) ++ rest) position ≡ Some value.now) }
{
    if position < front.len() {
        return Some(&front[position]);
    }
    let later = position - front.len();
    if later < next.len() {
        return Some(&next[later]);
    }
    None
}

// The value of a side of a comparison in these combined rows: `None` if it comes later.
fn side_among<'x>(side: &'x Comparand, front: &'x [Value], next: &'x [Value]) -> Option<&'x Value>
    ensures { IfSome result (λ value. (rest : List ColumnValue) →
        side_value side.now ((front.now ++ next.now) ++ rest) ≡ Some value.now) }
{
    match side {
        Comparand::Position(position) => value_among(*position, front, next),
        Comparand::Literal(value) => Some(value),
    }
}

// Whether the two values are not the same.
fn is_other(left: &Value, right: &Value) -> bool
    ensures { IsTrue result → is_eq (value_cmp left.now right.now) ≡ false }
{
    match left.cmp(right) {
        Ordering::Less => true,
        Ordering::Equal => false,
        Ordering::Greater => true,
    }
}

// Whether the comparison is an equality that fails in these combined rows.
fn fails(test: &CompareValues, front: &[Value], next: &[Value]) -> bool
    ensures { IsTrue result → (rest : List ColumnValue)
        → compares ((front.now ++ next.now) ++ rest) test.now ≡ false }
{
    let Comparison::Equal = test.comparison else {
        return false;
    };
    let Some(left) = side_among(&test.left, front, next) else {
        return false;
    };
    let Some(right) = side_among(&test.right, front, next) else {
        return false;
    };
    is_other(left, right)
}

// Whether the condition is an equality that fails in these combined rows.
fn is_failing(condition: &Cond, front: &[Value], next: &[Value]) -> bool
    ensures { IsTrue result → (rest : List ColumnValue)
        → meets condition.now ((front.now ++ next.now) ++ rest) ≡ false }
{
    match condition {
        Tree::Test(test) => fails(test, front, next),
        _ => false,
    }
}

/// Whether no combined row that begins with these values and then those meets all conditions, since
/// an equality among them fails. It takes no memory.
pub(crate) fn is_ruled_out(conjuncts: &[Cond], front: &[Value], next: &[Value]) -> bool
    ensures { IsTrue result → (rest : List ColumnValue)
        → meets_all conjuncts.now ((front.now ++ next.now) ++ rest) ≡ false }
{
    for condition in conjuncts {
        if is_failing(condition, front, next) {
            return true;
        }
    }
    false
}
