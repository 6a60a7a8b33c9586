//! Periods by their keys.

ghost use Rattle.std.specs.Prelude.{◌≡◌, ◌++◌, ◌∷◌, [], Contains, IsPermutation, List, IsTrue, ◌↔◌};
ghost use Rattle.std.specs.Prelude.{IfOk, OnErr, OnOk, if◌then◌else◌, map};
ghost use Rattle.std.specs.Bool.{OnFalse, OnTrue};
ghost use Rattle.std.specs.List.Sorted.{IsStrictlySortedBy};
ghost use Rattle.std.specs.Ordering.{eq_by_cmp};
ghost use Rattle.period_core.specs.Order.{values_cmp};
ghost use Rattle.period_core.specs.declared.value.Value.{Value as ColumnValue};
ghost use Rattle.period_keys.specs.Index.{periods_at};

use crate::key::Key;
use crate::ordered_periods::OrderedPeriods;
use period_core::{Memory, Period};
use std::alloc::Global;
use std::collections::BTreeMap;

/// For each key its periods, nearly in the order of their starts. Contracts read them by
/// `periods_at`.
#[derive(Drop)]
pub struct KeyedPeriods {
    entries: BTreeMap<Key, OrderedPeriods>,
}

impl KeyedPeriods {
    /// No periods.
    pub fn new(alloc: Global) -> KeyedPeriods
        ensures { (key : List ColumnValue) → periods_at result key ≡ [] }
    {
        KeyedPeriods {
            entries: BTreeMap::new(alloc),
        }
    }

    /// The periods of a key.
    pub fn of_key(&self, key: &Key) -> &[Period]
        ensures { result.now ≡ periods_at self.now key.now }
    {
        match self.entries.get(key) {
            Some(periods) => periods.as_slice(),
            None => &[],
        }
    }

    /// The periods of a key in two lists, each in the order of their starts.
    pub fn runs_of_key(&self, key: &Key) -> (&[Period], &[Period])
        ensures { result.0.now ++ result.1.now ≡ periods_at self.now key.now }
    {
        match self.entries.get(key) {
            Some(periods) => periods.runs(),
            None => (&[], &[]),
        }
    }

    /// Whether a key has such a period.
    pub fn has(&self, key: &Key, period: &Period) -> bool
        ensures { IsTrue result ↔ Contains (periods_at self.now key.now) period.now }
    {
        match self.entries.get(key) {
            Some(periods) => periods.has(period),
            None => false,
        }
    }

    /// The keys that have a period, in ascending order.
    pub fn keys(&self, alloc: Global) -> Result<Vec<&Key>, Memory>
        ensures exact { IfOk result (λ keys. (key : List ColumnValue)
            → (Contains (map (λ k. k.now) keys.items) key
            ↔ (periods_at self.now key ≡ [] → ⊥))) }
        ensures ascending { IfOk result
            (λ keys. IsStrictlySortedBy values_cmp (map (λ k. k.now) keys.items)) }
    {
        let mut keys = Vec::new(alloc);
        for key in self.entries.keys() {
            if !self.of_key(key).is_empty() {
                keys.push(key)?;
            }
        }
        Ok(keys)
    }

    /// Adds a period to a key. An error changes no periods.
    pub fn add(&mut self, alloc: Global, key: &Key, period: Period) -> Result<(), Memory>
        ensures ok { OnOk result ((other : List ColumnValue)
            → IsPermutation (periods_at self.new other)
            (if eq_by_cmp values_cmp key.now other
            then periods_at self.old other ++ period ∷ []
            else periods_at self.old other)) }
        ensures err { OnErr result ((other : List ColumnValue)
            → periods_at self.new other ≡ periods_at self.old other) }
    {
        let periods = self
            .entries
            .entry(key.copy(alloc)?)?
            .or_insert(OrderedPeriods::new(alloc));
        periods.add(period)
    }

    /// Takes one such period away from a key, and says whether there was one.
    pub fn take_out(&mut self, key: &Key, period: &Period) -> bool
        ensures taken { OnTrue result
            (IsPermutation (periods_at self.old key.now)
            (period.now ∷ periods_at self.new key.now)) }
        ensures absent { OnFalse result
            (Contains (periods_at self.old key.now) period.now → ⊥) }
        ensures kept { OnFalse result ((other : List ColumnValue)
            → periods_at self.new other ≡ periods_at self.old other) }
        ensures others { (other : List ColumnValue) → (key.now ≡ other → ⊥)
            → periods_at self.new other ≡ periods_at self.old other }
    {
        let Some(periods) = self.entries.get_mut(key) else {
            return false;
        };
        periods.take_one(period)
    }
}
