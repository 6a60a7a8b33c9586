//! The key of a row.

ghost use Rattle.std.specs.Prelude.{◌≡◌, ◌++◌, ◌∷◌, [], IfOk, IfSome, OnOk, slice_get};
ghost use Rattle.std.specs.List.{filter_map};
ghost use Rattle.period_core.specs.declared.value.Value.TheVariants.{Int};
ghost use Rattle.period_keys.specs.Keys.{key_values, values_at};

use crate::key::Key;
use period_core::{Memory, PeriodRow, Value, Values};
use std::alloc::Global;

/// A row's values at these positions, in this order.
pub fn key_of(alloc: Global, positions: &[usize], row: &PeriodRow) -> Result<Key, Memory>
    ensures { IfOk result (λ key. key ≡ key_values positions.now row.now) }
{
    values_of(alloc, positions, row.values.as_slice())
}

/// The values at these positions, in this order.
pub fn values_of(alloc: Global, positions: &[usize], values: &[Value]) -> Result<Key, Memory>
    ensures { IfOk result (λ key. key ≡ values_at positions.now values.now) }
{
    match leading_at(positions, values) {
        Some((number, others)) => {
            let rest = values_in(alloc, others, values)?;
            Ok(Key::with_leading(number, Values::from_vec(rest)))
        }
        None => {
            let all = values_in(alloc, positions, values)?;
            Ok(Key::from_vec(all))
        }
    }
}

// The value at the first position, if it is an integer, and the positions after that one.
fn leading_at<'a>(positions: &'a [usize], values: &[Value]) -> Option<(i64, &'a [usize])>
    ensures { IfSome result (λ found. values_at positions.now values.now
        ≡ Int found.0 ∷ values_at found.1.now values.now) }
{
    let [first, others @ ..] = positions else {
        return None;
    };
    match values.get(*first) {
        Some(Value::Int(number)) => Some((*number, others)),
        _ => None,
    }
}

// The values at these positions, in a list of their own.
fn values_in(alloc: Global, positions: &[usize], values: &[Value]) -> Result<Vec<Value>, Memory>
    ensures { IfOk result (λ found. found.items ≡ values_at positions.now values.now) }
{
    let mut found = Vec::with_capacity(alloc, positions.len())?;
    for position in positions {
        push_value_at(alloc, &mut found, values, *position)?;
    }
    Ok(found)
}

// Adds the value at the position, if there is one.
fn push_value_at(
    alloc: Global,
    found: &mut Vec<Value>,
    values: &[Value],
    position: usize,
) -> Result<(), Memory>
    ensures { OnOk result (found.new.items
        ≡ found.old.items ++ filter_map (slice_get values.now) (position ∷ [])) }
{
    if let Some(value) = values.get(position) {
        found.push(value.copy(alloc)?)?;
    }
    Ok(())
}
