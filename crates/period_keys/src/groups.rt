//! Version rows in groups of one key.

ghost use Rattle.std.specs.Prelude.{◌≡◌, ◌∷◌, ℕ, IfOk, IsPermutation, List, OnErr, OnOk};
ghost use Rattle.std.specs.Prelude.{filter, map, option_copied, true};
ghost use Rattle.std.specs.BTreeMap.{get_by};
ghost use Rattle.period_core.specs.Order.{values_cmp};
ghost use Rattle.period_core.specs.declared.version.VersionRow.{VersionRow as Version};
ghost use Rattle.period_keys.specs.Keys.{values_at};
ghost use Rattle.period_keys.specs.Rows.{AreGrouped, rows_of_groups, rows_of_lists};
ghost use Rattle.period_keys.specs.Versions.{has_key_in, recorded, version_key};

use crate::key::Key;
use crate::key_range::KeyRange;
use crate::key_rows::KeyRows;
use period_core::{Memory, Moment, Period, Value, Values, VersionRow};
use std::alloc::Global;
use std::cmp::Ordering;
use std::collections::BTreeMap;
use std::ops::Bound;

/// Groups of rows, each by its key.
pub type Groups = BTreeMap<Key, KeyRows>;

/// Adds a row of this key. An error changes no rows.
pub fn add_to(alloc: Global, groups: &mut Groups, key: &Key, row: VersionRow) -> Result<(), Memory>
    ensures ok { OnOk result (IsPermutation (rows_of_groups groups.new.entries)
        (row ∷ rows_of_groups groups.old.entries)) }
    ensures err { OnErr result
        (rows_of_groups groups.new.entries ≡ rows_of_groups groups.old.entries) }
    ensures grouped { (positions : List ℕ) → key.now ≡ version_key positions row
        → AreGrouped positions groups.old → AreGrouped positions groups.new }
{
    let group = groups
        .entry(key.copy(alloc)?)?
        .or_insert(KeyRows::none(alloc));
    group.add(alloc, row)
}

/// Takes out a row of this key, with these values, this period and this system time. It takes no
/// memory.
pub fn take_from(
    groups: &mut Groups,
    key: &Key,
    values: &Values,
    period: Period,
    from: Moment,
    to: Moment,
)
    ensures rows { (positions : List ℕ) (rest : List Version)
        → key.now ≡ values_at positions values.now → AreGrouped positions groups.old
        → IsPermutation (rows_of_groups groups.old.entries)
        (recorded values.now period from to ∷ rest)
        → IsPermutation (rows_of_groups groups.new.entries) rest }
    ensures grouped { (positions : List ℕ)
        → AreGrouped positions groups.old → AreGrouped positions groups.new }
{
    let Some(group) = groups.get_mut(key) else {
        return;
    };
    let _taken = group.take_one(values, period, from, to);
    if group.is_empty() {
        let _emptied = groups.remove(key);
    }
}

/// The group of a key. The last key is looked at first, since many rows come in the
/// order of their keys, each with a key above all earlier ones.
pub fn group_at<'a>(groups: &'a Groups, key: &Key) -> Option<&'a KeyRows>
    ensures { option_copied result ≡ get_by (values_cmp key.now) groups.now }
{
    match groups.last_key_value() {
        Some((last, _)) if last.cmp(key) == Ordering::Less => None,
        _ => groups.get(key),
    }
}

/// The group of the values, which no other key in the range has, if the range has them.
pub fn group_within<'a>(
    alloc: Global,
    groups: &'a Groups,
    range: &KeyRange,
    values: &[Value],
) -> Result<Vec<&'a KeyRows>, Memory>
    ensures { IfOk result (λ found. (positions : List ℕ) → AreGrouped positions groups.now
        → ((version : Version) → has_key_in positions range.now version ≡ true
        → version_key positions version ≡ values.now)
        → rows_of_lists (map (λ group. group.now) found.items)
        ≡ filter (has_key_in positions range.now) (rows_of_groups groups.now.entries)) }
{
    let key = Key::of(alloc, values)?;
    if !range.has(&key) {
        return Ok(Vec::new(alloc));
    }
    let Some(group) = groups.get(&key) else {
        return Ok(Vec::new(alloc));
    };
    let mut found = Vec::new(alloc);
    found.push(group)?;
    Ok(found)
}

/// The groups of the keys in the range. In the order of keys they are next to each other: no key
/// after the first values that is neither in the range nor passed over has one after it that is.
pub fn groups_in<'a>(
    alloc: Global,
    groups: &'a Groups,
    range: &KeyRange,
) -> Result<Vec<&'a KeyRows>, Memory>
    ensures { IfOk result (λ found. (positions : List ℕ) → AreGrouped positions groups.now
        → rows_of_lists (map (λ group. group.now) found.items)
        ≡ filter (has_key_in positions range.now) (rows_of_groups groups.now.entries)) }
{
    let first = range.first(alloc)?;
    let mut found = Vec::new(alloc);
    for (key, group) in groups.range((Bound::Included(&first), Bound::Unbounded)) {
        if range.has(key) {
            found.push(group)?;
        } else if !range.passes_over(key) {
            return Ok(found);
        }
    }
    Ok(found)
}
