//! The values of a key.

ghost use Rattle.std.specs.Prelude.{◌≡◌, ◌↔◌, ◌<◌, ◌∷◌, IfOk, IfSome, IsTrue, Some, drop};
ghost use Rattle.std.specs.Prelude.{length, slice_get, take};
ghost use Rattle.catalog_core.specs.Conditions.{compared};
ghost use Rattle.period_core.specs.Order.{values_cmp};
ghost use Rattle.period_core.specs.declared.value.Value.TheVariants.{Int};

use catalog_core::is_allowed;
use period_core::{Memory, Value, Values};
use sql_statements::Comparison;
use std::alloc::Global;
use std::cmp::Ordering;
use std::marker::Model;

/// The values of a key, which contracts see as their list. A first one that is an integer is stored
/// before the rest: so the key of one integer takes no memory, and most comparisons of two keys
/// read no other values.
#[derive(Drop)]
pub struct Key {
    leading: Option<i64>,
    rest: Values,
}

impl Model for Key {
    ghost use Rattle.std.specs.Prelude.{List};
    ghost use Rattle.period_core.specs.declared.value.Value.{Value as ColumnValue};
    ghost use Rattle.period_keys.specs.Leading.{values_after};

    ghost Value = { List ColumnValue };

    ghost view = { λ k. values_after k.leading k.rest };
}

impl Key {
    /// The key with the values given.
    pub fn from_vec(mut values: Vec<Value>) -> Key
        ensures { result ≡ values.items }
    {
        let leading = leading_of(values.as_slice());
        if leading.is_some() {
            let _first = values.remove(0);
        }
        Key {
            leading,
            rest: Values::from_vec(values),
        }
    }

    /// The key of these values.
    pub(crate) fn of(alloc: Global, values: &[Value]) -> Result<Key, Memory>
        ensures { IfOk result (λ key. key ≡ values.now) }
    {
        match values {
            [Value::Int(number), others @ ..] => {
                let rest = copies_of(alloc, others)?;
                Ok(Key::with_leading(*number, Values::from_vec(rest)))
            }
            _ => {
                let all = copies_of(alloc, values)?;
                Ok(Key::from_vec(all))
            }
        }
    }

    /// The key of an integer and the values after it.
    pub(crate) fn with_leading(number: i64, rest: Values) -> Key
        ensures { result ≡ Int number ∷ rest }
    {
        Key {
            leading: Some(number),
            rest,
        }
    }

    /// An equal key.
    pub fn copy(&self, alloc: Global) -> Result<Key, Memory>
        ensures { IfOk result (λ key. key ≡ self.now) }
    {
        let rest = self.rest.copy(alloc)?;
        Ok(Key {
            leading: self.leading,
            rest,
        })
    }

    /// The values after the first `count`, as a key.
    pub(crate) fn after(&self, alloc: Global, count: usize) -> Result<Key, Memory>
        ensures { IfOk result (λ key. key ≡ drop count self.now) }
    {
        match self.leading {
            Some(_) if count == 0 => self.copy(alloc),
            Some(_) => key_from(alloc, self.rest.as_slice(), count - 1),
            None => key_from(alloc, self.rest.as_slice(), count),
        }
    }

    /// Whether the key begins with these values.
    pub(crate) fn begins_with(&self, leading: &[Value]) -> bool
        ensures { IsTrue result ↔ (leading.now ≡ take (length leading.now) self.now) }
    {
        match self.leading {
            None => is_start(leading, self.rest.as_slice()),
            Some(number) => match leading {
                [] => true,
                [Value::Int(first), others @ ..] => {
                    *first == number && is_start(others, self.rest.as_slice())
                }
                _ => false,
            },
        }
    }

    /// Whether the key has a value at a place.
    pub(crate) fn has_place(&self, place: usize) -> bool
        ensures { IsTrue result ↔ place < length self.now }
    {
        match self.leading {
            None => place < self.rest.as_slice().len(),
            Some(_) => place <= self.rest.as_slice().len(),
        }
    }

    /// Whether the key has a value at a place that compares so with this one.
    pub(crate) fn compares(&self, place: usize, comparison: Comparison, value: &Value) -> bool
        ensures { result ≡ compared comparison (slice_get self.now place) (Some value.now) }
    {
        match self.leading {
            None => compares_at(self.rest.as_slice(), place, comparison, value),
            Some(number) => {
                if place == 0 {
                    return is_allowed(comparison, Value::Int(number).cmp(value));
                }
                compares_at(self.rest.as_slice(), place - 1, comparison, value)
            }
        }
    }

    // All values of both compared. `cmp` calls it if the integers before them do not decide; it
    // is not inlined there, which would make a search over the keys of a map slow.
    #[inline(never)]
    fn cmp_whole(&self, other: &Key) -> Ordering
        ensures { result ≡ values_cmp self.now other.now }
    {
        match (self.leading, other.leading) {
            (Some(one), Some(other_one)) => one.cmp(&other_one).then(self.rest.cmp(&other.rest)),
            (Some(one), None) => cmp_with(one, self.rest.as_slice(), other.rest.as_slice()),
            (None, Some(one)) => {
                cmp_with(one, other.rest.as_slice(), self.rest.as_slice()).reverse()
            }
            (None, None) => self.rest.cmp(&other.rest),
        }
    }
}

/// Copies of the values.
pub fn copies_of(alloc: Global, values: &[Value]) -> Result<Vec<Value>, Memory>
    ensures { IfOk result (λ own. own.items ≡ values.now) }
{
    let mut own = Vec::with_capacity(alloc, values.len())?;
    for value in values {
        own.push(value.copy(alloc)?)?;
    }
    Ok(own)
}

// The key of the values after the first `count`.
fn key_from(alloc: Global, values: &[Value], count: usize) -> Result<Key, Memory>
    ensures { IfOk result (λ key. key ≡ drop count values.now) }
{
    let from = count.min(values.len());
    Key::of(alloc, values.split_at(from).1)
}

// Whether there is a value at a place that compares so with this one.
fn compares_at(values: &[Value], place: usize, comparison: Comparison, value: &Value) -> bool
    ensures { result ≡ compared comparison (slice_get values.now place) (Some value.now) }
{
    match values.get(place) {
        Some(own) => is_allowed(comparison, own.cmp(value)),
        None => false,
    }
}

// The first value, if it is an integer.
fn leading_of(values: &[Value]) -> Option<i64>
    ensures { IfSome result (λ number. values.now ≡ Int number ∷ drop 1 values.now) }
{
    match values {
        [Value::Int(number), ..] => Some(*number),
        _ => None,
    }
}

// Whether values begin with these.
fn is_start(leading: &[Value], values: &[Value]) -> bool
    ensures { IsTrue result ↔ (leading.now ≡ take (length leading.now) values.now) }
{
    leading.len() <= values.len() && leading.cmp(&values[..leading.len()]) == Ordering::Equal
}

// An integer and the values after it, compared with other values.
fn cmp_with(number: i64, rest: &[Value], values: &[Value]) -> Ordering
    ensures { result ≡ values_cmp (Int number ∷ rest.now) values.now }
{
    let [first, others @ ..] = values else {
        return Ordering::Greater;
    };
    match Value::Int(number).cmp(first) {
        Ordering::Equal => rest.cmp(others),
        order => order,
    }
}

impl PartialEq for Key {
    ghost use Rattle.std.specs.Cmp.{partial_equiv_from_equiv, eq_by_cmp_equiv};
    ghost use Rattle.std.specs.Ordering.{eq_by_cmp};
    ghost use Rattle.period_core.specs.Order.{values_cmp};
    ghost use Rattle.period_core.specs.OrderLaws.{values_cmp_total};

    ghost eq = { eq_by_cmp values_cmp };

    ghost laws = { partial_equiv_from_equiv (eq_by_cmp_equiv values_cmp_total) };

    fn eq(&self, other: &Key) -> bool {
        self.cmp(other) == Ordering::Equal
    }
}

impl Eq for Key {
    ghost use Rattle.std.specs.Cmp.{eq_by_cmp_equiv};
    ghost use Rattle.period_core.specs.OrderLaws.{values_cmp_total};

    ghost laws = { eq_by_cmp_equiv values_cmp_total };
}

impl Ord for Key {
    ghost use Rattle.std.specs.Prelude.{refl};
    ghost use Rattle.period_core.specs.Order.{values_cmp};
    ghost use Rattle.period_core.specs.OrderLaws.{values_cmp_total};

    ghost cmp = { values_cmp };

    ghost total = { values_cmp_total };

    ghost matches_partial_cmp = { λ x y. refl };

    ghost matches_eq = { λ x y. refl };

    // A search over the keys of a map makes many comparisons, and most end in the first line. So it
    // is inlined there, and takes a few instructions a key.
    #[inline(always)]
    fn cmp(&self, other: &Key) -> Ordering {
        match (self.leading, other.leading) {
            (Some(one), Some(other_one)) if one != other_one => one.cmp(&other_one),
            _ => self.cmp_whole(other),
        }
    }
}

impl PartialOrd for Key {
    ghost use Rattle.std.specs.Cmp.{partial_order_from_total};
    ghost use Rattle.std.specs.Ordering.{as_partial_cmp};
    ghost use Rattle.period_core.specs.Order.{values_cmp};
    ghost use Rattle.period_core.specs.OrderLaws.{values_cmp_total};

    ghost partial_cmp = { as_partial_cmp values_cmp };

    ghost laws = { partial_order_from_total values_cmp_total };

    fn partial_cmp(&self, other: &Key) -> Option<Ordering> {
        Some(self.cmp(other))
    }
}
