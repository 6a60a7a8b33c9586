//! The truth of a condition, as far as some of a row's values decide it.

ghost use Rattle.std.specs.Prelude.{◌≡◌, ◌++◌, List, IfSome, Some, length, true, false};
ghost use Rattle.period_core.specs.declared.value.Value.{Value as ColumnValue};
ghost use Rattle.catalog_core.specs.Conditions.{side_value};
ghost use Rattle.sequenced_ops.specs.Planning.{IsTestTruth, IsTruth};

use catalog_core::{Comparand, CompareValues, Cond, is_allowed};
use period_core::Value;
use sql_statements::Tree;

/// The value of a side in a row that has these values from a position on: `None` if the row's
/// other values may have it.
fn known_value<'a>(side: &'a Comparand, start: usize, values: &'a [Value]) -> Option<&'a Value>
    ensures { IfSome result (λ value. (first rest : List ColumnValue) → length first ≡ start
        → side_value side.now (first ++ (values.now ++ rest)) ≡ Some value.now) }
{
    match side {
        Comparand::Position(position) => {
            if *position < start {
                return None;
            }
            values.get(*position - start)
        }
        Comparand::Literal(value) => Some(value),
    }
}

/// Whether the comparison holds of such a row: `None` if the other values may decide it.
fn known_test(test: &CompareValues, start: usize, values: &[Value]) -> Option<bool>
    ensures { IfSome result (IsTestTruth start values.now test.now) }
{
    let Some(left) = known_value(&test.left, start, values) else {
        return None;
    };
    let Some(right) = known_value(&test.right, start, values) else {
        return None;
    };
    Some(is_allowed(test.comparison, left.cmp(right)))
}

/// Whether the condition holds of such a row: `None` if the other values may decide it.
fn known_truth(condition: &Cond, start: usize, values: &[Value]) -> Option<bool>
    ensures { IfSome result (IsTruth start values.now condition.now) }
{
    match condition {
        Tree::Or(first, others) => {
            if known_truth(first, start, values)? {
                return Some(true);
            }
            for part in others {
                if known_truth(part, start, values)? {
                    return Some(true);
                }
            }
            Some(false)
        }
        Tree::And(first, others) => {
            if !known_truth(first, start, values)? {
                return Some(false);
            }
            for part in others {
                if !known_truth(part, start, values)? {
                    return Some(false);
                }
            }
            Some(true)
        }
        Tree::Not(part) => Some(!known_truth(part, start, values)?),
        Tree::Test(test) => known_test(test, start, values),
    }
}

/// Whether no such row meets the condition, whatever its other values are.
pub fn is_refuted(condition: &Cond, start: usize, values: &[Value]) -> bool
    ensures { result ≡ true → IsTruth start values.now condition.now false }
{
    match known_truth(condition, start, values) {
        Some(truth) => !truth,
        None => false,
    }
}
