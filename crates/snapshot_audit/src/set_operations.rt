//! Union, difference and intersection of sets as lists. The last two go over both lists once.

ghost use Rattle.std.specs.Prelude.{◌≡◌, ◌↔◌, ◌⊎◌, List, Contains, IfOk, IsTrue};
ghost use Rattle.std.specs.declared.cmp.Ordering.TheVariants.{Less};
ghost use Rattle.period_core.specs.Order.{values_cmp};
ghost use Rattle.period_core.specs.declared.value.Value.{Value};
ghost use Rattle.history_model.specs.OrdinaryQuery.{InCombined};
ghost use Rattle.snapshot_audit.specs.Sets.{IsAscending, ListsSet, NoneBelow};

use crate::sets::sorted_once;
use period_core::{Memory, Values};
use sql_statements::SetOperator;
use std::alloc::Global;
use std::cmp::Ordering;

// Whether the first values are less than the second.
fn is_below(first: &Values, second: &Values) -> bool
    ensures { IsTrue result ↔ (values_cmp first.now second.now ≡ Less) }
{
    match first.cmp(second) {
        Ordering::Less => true,
        Ordering::Equal => false,
        Ordering::Greater => false,
    }
}

// The list without its first values that are less than the given ones.
fn not_below<'a>(others: &'a [Values], values: &Values) -> &'a [Values]
    requires { IsAscending others.now }
    ensures ascending { IsAscending result.now }
    ensures inside { (other : List Value) → Contains result.now other → Contains others.now other }
    ensures passed { (other : List Value) → Contains others.now other
        → (Contains result.now other ⊎ (values_cmp other values.now ≡ Less)) }
    ensures bound { NoneBelow values.now result.now }
{
    let mut rest = others;
    while let [other, after @ ..] = rest {
        if !is_below(other, values) {
            return rest;
        }
        rest = after;
    }
    rest
}

// Whether the values are in the list, none of which is less.
fn is_first(values: &Values, others: &[Values]) -> bool
    requires ascending { IsAscending others.now }
    requires bound { NoneBelow values.now others.now }
    ensures { IsTrue result ↔ Contains others.now values.now }
{
    let [other, ..] = others else {
        return false;
    };
    *other == *values
}

// The left set without the values of the right set.
fn without(alloc: Global, left: Vec<Values>, right: &[Values]) -> Result<Vec<Values>, Memory>
    requires left { IsAscending left.items }
    requires right { IsAscending right.now }
    ensures { IfOk result (λ set. ListsSet
        (λ values. Contains left.items values × (Contains right.now values → ⊥)) set.items) }
{
    let mut set = Vec::new(alloc);
    let mut others = right;
    for values in left {
        others = not_below(others, &values);
        if !is_first(&values, others) {
            set.push(values)?;
        }
    }
    Ok(set)
}

// The values that both sets have.
fn common(alloc: Global, left: Vec<Values>, right: &[Values]) -> Result<Vec<Values>, Memory>
    requires left { IsAscending left.items }
    requires right { IsAscending right.now }
    ensures { IfOk result (λ set. ListsSet
        (λ values. Contains left.items values × Contains right.now values) set.items) }
{
    let mut set = Vec::new(alloc);
    let mut others = right;
    for values in left {
        others = not_below(others, &values);
        if is_first(&values, others) {
            set.push(values)?;
        }
    }
    Ok(set)
}

// The values of either set.
fn either(left: Vec<Values>, right: Vec<Values>) -> Result<Vec<Values>, Memory>
    ensures { IfOk result (λ set. ListsSet
        (λ values. Contains left.items values ⊎ Contains right.items values) set.items) }
{
    let mut both = left;
    let mut more = right;
    both.append(&mut more)?;
    sorted_once(both)
}

/// The set that the set operator gives of both sets, in ascending order, each list of values once.
pub(crate) fn combined(
    alloc: Global,
    operator: SetOperator,
    left: Vec<Values>,
    right: Vec<Values>,
) -> Result<Vec<Values>, Memory>
    requires left { IsAscending left.items }
    requires right { IsAscending right.items }
    ensures { IfOk result (λ set. ListsSet
        (InCombined operator (Contains left.items) (Contains right.items)) set.items) }
{
    match operator {
        SetOperator::Union => either(left, right),
        SetOperator::Except => without(alloc, left, right.as_slice()),
        SetOperator::Intersect => common(alloc, left, right.as_slice()),
    }
}
