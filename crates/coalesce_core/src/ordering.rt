//! The order of values and of rows.

ghost use Rattle.std.specs.Prelude.{◌≡◌, ◌↔◌, IsTrue};
ghost use Rattle.coalesce_core.specs.Coalesced.{IsCoalesced, PrecedesWithGap};
ghost use Rattle.period_core.specs.Order.{values_cmp};
ghost use Rattle.temporal_model.specs.Answer.{answer_cmp};

use period_core::{PeriodRow, Value};
use std::cmp::Ordering;

/// The order of two lists of values. Integers at their beginning are compared here, in fewer
/// instructions than the order of any two values takes.
pub fn compare_values(first: &[Value], second: &[Value]) -> Ordering
    ensures { result ≡ values_cmp first.now second.now }
{
    let [Value::Int(number), rest @ ..] = first else {
        return first.cmp(second);
    };
    let [Value::Int(other), others @ ..] = second else {
        return first.cmp(second);
    };
    match number.cmp(other) {
        Ordering::Equal => {
            if rest.is_empty() && others.is_empty() {
                return Ordering::Equal;
            }
            compare_values(rest, others)
        }
        unequal => unequal,
    }
}

/// Whether two lists of values are the same.
pub fn are_same(first: &[Value], second: &[Value]) -> bool
    ensures { IsTrue result ↔ (first.now ≡ second.now) }
{
    compare_values(first, second) == Ordering::Equal
}

/// The order of two rows: by values, and then by first day.
pub fn compare_rows(first: &PeriodRow, second: &PeriodRow) -> Ordering
    ensures { result ≡ answer_cmp first.now second.now }
{
    match compare_values(first.values.as_slice(), second.values.as_slice()) {
        Ordering::Equal => first.period.start.cmp(&second.period.start),
        unequal => unequal,
    }
}

/// Whether the first row comes before the second, with a day between them if their values are the
/// same.
fn precedes_with_gap(first: &PeriodRow, second: &PeriodRow) -> bool
    ensures { IsTrue result → PrecedesWithGap first.now second.now }
{
    match compare_values(first.values.as_slice(), second.values.as_slice()) {
        Ordering::Less => true,
        Ordering::Equal => first.period.end < second.period.start,
        Ordering::Greater => false,
    }
}

/// Whether the rows are a coalesced list as they are.
pub fn is_coalesced(rows: &[PeriodRow]) -> bool
    ensures { IsTrue result → IsCoalesced rows.now }
{
    for i in 1..rows.len() {
        if !precedes_with_gap(&rows[i - 1], &rows[i]) {
            return false;
        }
    }
    true
}
