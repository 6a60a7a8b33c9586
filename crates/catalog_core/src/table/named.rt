//! Named things: the number of elements of a list that a name matches, the first of them, and its
//! place.

ghost use Rattle.std.specs.Prelude.{◌≡◌, ◌<◌, ℕ, IfOk, IfSome, List, Some, false, length, map};
ghost use Rattle.std.specs.Prelude.{option_copied, true};
ghost use Rattle.catalog_core.specs.table.IsDefinition.{are_places};
ghost use Rattle.catalog_core.specs.table.Naming as naming;
ghost use Rattle.catalog_core.specs.table.Naming.{find_among, matches_among, place_among};
ghost use Rattle.catalog_core.specs.table.Naming.{some_match_among};
ghost use Rattle.catalog_core.specs.declared.table.match_counts.MatchCount.TheVariants.{Zero};

use crate::table::Column;
use crate::table::match_counts::MatchCount;
use period_core::Memory;
use sql_statements::{ColumnElement, Name, TableReference};
use std::alloc::Global;

/// A thing that has a name.
pub trait Named {
    ghost named: { Self → List ℕ };

    /// The name of the thing.
    fn name(&self) -> &Name
        ensures { result.now ≡ named self.now };
}

impl Named for Name {
    ghost named = { λ n. n };

    fn name(&self) -> &Name {
        self
    }
}

impl Named for ColumnElement {
    ghost named = { λ x. x.name };

    fn name(&self) -> &Name {
        &self.name
    }
}

impl Named for Column {
    ghost named = { λ x. x.name };

    fn name(&self) -> &Name {
        &self.name
    }
}

/// A new name, or else the old one.
pub fn name_or<'a>(new: &'a Option<Name>, name: &'a Name) -> &'a Name
    ensures { result.now ≡ naming.name_or new.now name.now }
{
    match new {
        Some(new) => new,
        None => name,
    }
}

/// The name by which a reference is known.
pub fn known_name(reference: &TableReference) -> &Name
    ensures { result.now ≡ naming.known_name reference.now }
{
    name_or(&reference.new_name, &reference.table)
}

impl<'a> Named for &'a TableReference {
    ghost use Rattle.catalog_core.specs.table.Naming.{known_name};

    ghost named = { λ r. known_name r.now };

    fn name(&self) -> &Name {
        known_name(*self)
    }
}

/// The number of elements that a name matches.
#[tactic(auto, unfolding(crate::specs::table::Naming::matches_among))]
pub fn matches_among<T: Named>(elements: &[T], name: &Name) -> usize
    ensures { result ≡ matches_among T.named elements.now name.now }
{
    let mut count = 0;
    for x in elements {
        if name.is(x.name()) {
            count += 1;
        }
    }
    count
}

/// Whether one of the names matches the wanted number of elements.
#[tactic(auto, unfolding(crate::specs::table::Naming::some_match_among))]
pub fn some_match_among<T: Named>(elements: &[T], wanted: MatchCount, names: &[Name]) -> bool
    ensures { result ≡ some_match_among T.named elements.now wanted names.now }
{
    names.iter().any(|x| wanted.is(matches_among(elements, x)))
}

/// The first element that a name matches.
#[tactic(auto, unfolding(crate::specs::table::Naming::find_among))]
pub fn find_among<'a, T: Named>(elements: &'a [T], name: &Name) -> Option<&'a T>
    ensures { option_copied result ≡ find_among T.named elements.now name.now }
{
    for x in elements {
        if name.is(x.name()) {
            return Some(x);
        }
    }
    None
}

/// The place of the first element that a name matches.
#[tactic(auto, unfolding(crate::specs::table::Naming::place_among))]
pub fn place_among<T: Named>(elements: &[T], name: &Name) -> Option<usize>
    ensures value { result ≡ place_among T.named elements.now name.now }
    ensures within { IfSome result (λ place. place < length elements.now) }
{
    for i in 0..elements.len() {
        if name.is(elements[i].name()) {
            return Some(i);
        }
    }
    None
}

/// The places of the first elements that the names match. Each matches some.
pub fn places_among<T: Named>(
    alloc: Global,
    elements: &[T],
    names: &[Name],
) -> Result<Vec<usize>, Memory>
    requires { some_match_among T.named elements.now Zero names.now ≡ false }
    ensures value { IfOk result
        (λ v. map (place_among T.named elements.now) names.now ≡ map (λ i. Some i) v.items) }
    ensures within { IfOk result (λ v. are_places (length elements.now) v.items ≡ true) }
{
    let mut places = Vec::new(alloc);
    for name in names {
        let Some(place) = place_among(elements, name) else {
            unreachable!()
        };
        places.push(place)?;
    }
    Ok(places)
}
