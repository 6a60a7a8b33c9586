//! The keys that conditions leave: those that begin with given values, and have the value after
//! these within limits.

ghost use Rattle.std.specs.Prelude.{◌≡◌, ◌↔◌, ◌≤◌, ◌++◌, IfOk, IfSome, IsSome, IsTrue, List, OnOk};
ghost use Rattle.std.specs.Prelude.{length, option_copied, slice_get, true};
ghost use Rattle.period_core.specs.declared.value.Value.{Value as ColumnValue};
ghost use Rattle.period_keys.specs.Keys.{values_at};
ghost use Rattle.period_keys.specs.Ranges.{first_values, is_above, is_at_lower, is_below};
ghost use Rattle.period_keys.specs.Ranges.{is_in_range, is_passed_over, limit_of, limit_values};

use crate::key::{Key, copies_of};
use period_core::{Memory, Value};
use sql_statements::Comparison;
use std::alloc::Global;

/// A limit of values: one that is within itself, one that is not, or none.
#[derive(Drop)]
pub enum Limit {
    Included(Value),
    Excluded(Value),
    Unbounded,
}

impl Limit {
    /// The limit that the lower or upper value sets: the first is within itself, the second is not.
    pub(crate) fn of(
        alloc: Global,
        included: Option<&Value>,
        excluded: Option<&Value>,
    ) -> Result<Limit, Memory>
        ensures { IfOk result (λ limit.
            limit ≡ limit_of (option_copied included.entry) (option_copied excluded.entry)) }
    {
        match (included, excluded) {
            (Some(value), _) => Ok(Limit::Included(value.copy(alloc)?)),
            (None, Some(value)) => Ok(Limit::Excluded(value.copy(alloc)?)),
            (None, None) => Ok(Limit::Unbounded),
        }
    }
}

/// The keys that begin with the leading values, and have the value after these within both limits.
#[derive(Drop)]
pub struct KeyRange {
    pub(crate) leading: Vec<Value>,
    pub(crate) lower: Limit,
    pub(crate) upper: Limit,
}

impl KeyRange {
    /// All keys.
    pub(crate) fn all(alloc: Global) -> KeyRange
        ensures { (key : List ColumnValue) → is_in_range result key ≡ true }
    {
        KeyRange::led_by(Vec::new(alloc))
    }

    /// The keys that begin with these values.
    pub(crate) fn led_by(leading: Vec<Value>) -> KeyRange
        ensures leading { result.leading ≡ leading }
        ensures lower { result.lower ≡ Limit.Unbounded }
        ensures upper { result.upper ≡ Limit.Unbounded }
    {
        KeyRange {
            leading,
            lower: Limit::Unbounded,
            upper: Limit::Unbounded,
        }
    }

    /// Whether the range has all keys. It does only if it is made of nothing.
    pub fn is_all(&self) -> bool
        ensures { IsTrue result ↔ ((key : List ColumnValue) → is_in_range self.now key ≡ true) }
    {
        self.leading.is_empty() && is_unbounded(&self.lower) && is_unbounded(&self.upper)
    }

    /// The key at these positions, if the range has one key of so many values.
    pub(crate) fn whole_key(&self, positions: &[usize]) -> Option<&[Value]>
        ensures whole { IfSome result (λ key. (values : List ColumnValue)
            → is_in_range self.now (values_at positions.now values) ≡ true
            → values_at positions.now values ≡ key.now) }
        ensures found { IsSome result ↔ (length positions.now ≤ length self.now.leading.items) }
    {
        if self.leading.len() < positions.len() {
            return None;
        }
        Some(self.leading.as_slice())
    }

    /// Whether the key is in the range.
    pub(crate) fn has(&self, key: &Key) -> bool
        ensures { result ≡ is_in_range self.now key.now }
    {
        let next = self.leading.len();
        if !key.begins_with(self.leading.as_slice()) {
            return false;
        }
        is_within_lower(&self.lower, key, next) && is_within_upper(&self.upper, key, next)
    }

    /// Whether the key is not in the range, but one after it may be.
    pub(crate) fn passes_over(&self, key: &Key) -> bool
        ensures { result ≡ is_passed_over self.now key.now }
    {
        let next = self.leading.len();
        key.begins_with(self.leading.as_slice()) && is_before_lower(&self.lower, key, next)
    }

    /// A key that no key in the range is before.
    pub(crate) fn first(&self, alloc: Global) -> Result<Key, Memory>
        ensures { IfOk result (λ first. first ≡ first_values self.now) }
    {
        let mut values = copies_of(alloc, self.leading.as_slice())?;
        push_limit(alloc, &self.lower, &mut values)?;
        Ok(Key::from_vec(values))
    }
}

// Whether there is no limit.
fn is_unbounded(limit: &Limit) -> bool
    ensures { IsTrue result ↔ (limit.now ≡ Limit.Unbounded) }
{
    matches!(limit, Limit::Unbounded)
}

// Whether the key has a value at a place that is within a lower limit.
fn is_within_lower(limit: &Limit, key: &Key, place: usize) -> bool
    ensures { result ≡ is_above limit.now (slice_get key.now place) }
{
    match limit {
        Limit::Included(value) => key.compares(place, Comparison::GreaterOrEqual, value),
        Limit::Excluded(value) => key.compares(place, Comparison::Greater, value),
        Limit::Unbounded => true,
    }
}

// Whether it has one that is within an upper limit.
fn is_within_upper(limit: &Limit, key: &Key, place: usize) -> bool
    ensures { result ≡ is_below limit.now (slice_get key.now place) }
{
    match limit {
        Limit::Included(value) => key.compares(place, Comparison::LessOrEqual, value),
        Limit::Excluded(value) => key.compares(place, Comparison::Less, value),
        Limit::Unbounded => true,
    }
}

// Whether the key has no value at a place, or one that a lower limit itself leaves out.
fn is_before_lower(limit: &Limit, key: &Key, place: usize) -> bool
    ensures { result ≡ is_at_lower limit.now (slice_get key.now place) }
{
    match limit {
        Limit::Excluded(value) => {
            !key.has_place(place) || key.compares(place, Comparison::Equal, value)
        }
        _ => !key.has_place(place),
    }
}

// Adds the value of a limit, if it has one.
fn push_limit(alloc: Global, limit: &Limit, values: &mut Vec<Value>) -> Result<(), Memory>
    ensures { OnOk result (values.new.items ≡ values.old.items ++ limit_values limit.now) }
{
    match limit {
        Limit::Included(value) => values.push(value.copy(alloc)?)?,
        Limit::Excluded(value) => values.push(value.copy(alloc)?)?,
        Limit::Unbounded => {}
    }
    Ok(())
}
