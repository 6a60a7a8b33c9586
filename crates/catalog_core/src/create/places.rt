//! Tests of columns, keys and references by places. CREATE TABLE is judged by them once each name
//! has its place, and the definitions of a store are too. No test takes memory.

ghost use Rattle.std.specs.Prelude.{◌≡◌, Some};
ghost use Rattle.std.specs.List.{list_all, list_any};
ghost use Rattle.catalog_core.specs.create.Places.{are_dates, are_key_places, declared_at};
ghost use Rattle.catalog_core.specs.create.Places.{has_place, has_system_columns, have_two_kinds};
ghost use Rattle.catalog_core.specs.create.Places.{is_date_place, kind_at, place_count};
ghost use Rattle.catalog_core.specs.create.Places.{refers_to_no_key, refers_to_other_kind};
ghost use Rattle.catalog_core.specs.create.Places.{repeats_place};

use crate::table::catalog::Catalog;
use crate::table::kinds::{differ, kind_of_column, same_kind};
use crate::table::{Column, ColumnKind, Reference, TableDef, ValueKind};

/// The number of times that a place is in a list.
fn place_count(place: usize, places: &[usize]) -> usize
    ensures { result ≡ place_count place places.now }
{
    places.iter().filter(|other| **other == place).count()
}

/// Whether some place is in a list more than once.
#[tactic(auto, unfolding(crate::specs::create::Places::repeats_place))]
pub fn repeats_place(places: &[usize]) -> bool
    ensures { result ≡ repeats_place places.now }
{
    places.iter().any(|place| place_count(*place, places) > 1)
}

/// Whether a place is in a list.
#[tactic(auto, unfolding(crate::specs::create::Places::has_place))]
pub fn has_place(places: &[usize], place: usize) -> bool
    ensures { result ≡ has_place places.now place }
{
    places.contains(&place)
}

/// Whether each place is in another list.
fn are_among(others: &[usize], places: &[usize]) -> bool
    ensures { result ≡ list_all (has_place others.now) places.now }
{
    places.iter().all(|place| has_place(others, *place))
}

/// Whether there is one ROW START column and one ROW END column.
#[tactic(auto, unfolding(crate::specs::create::Places::has_system_columns))]
pub fn has_system_columns(columns: &[Column]) -> bool
    ensures { result ≡ has_system_columns columns.now }
{
    let (mut starts, mut ends) = (0_usize, 0_usize);
    for column in columns {
        match column.kind {
            ColumnKind::RowStart(_) => starts += 1,
            ColumnKind::RowEnd(_) => ends += 1,
            _ => {}
        }
    }
    starts == 1 && ends == 1
}

/// The kind of the column at a place, as it is declared.
#[tactic(auto, unfolding(crate::specs::create::Places::declared_at))]
pub fn declared_at(columns: &[Column], place: Option<usize>) -> Option<ColumnKind>
    ensures { result ≡ declared_at columns.now place }
{
    match place {
        Some(place) => match columns.get(place) {
            Some(column) => Some(column.kind),
            None => None,
        },
        None => None,
    }
}

/// The kind of the column at a place, by which it is compared.
#[tactic(auto, unfolding(crate::specs::create::Places::kind_at))]
fn kind_at(columns: &[Column], place: usize) -> Option<ValueKind>
    ensures { result ≡ kind_at columns.now place }
{
    match declared_at(columns, Some(place)) {
        Some(kind) => Some(kind_of_column(kind)),
        None => None,
    }
}

/// Whether the column at a place is a DATE column.
#[tactic(auto, unfolding(crate::specs::create::Places::is_date_place))]
fn is_date_place(columns: &[Column], place: usize) -> bool
    ensures { result ≡ is_date_place columns.now place }
{
    match kind_at(columns, place) {
        Some(kind) => same_kind(kind, ValueKind::Date),
        None => false,
    }
}

/// Whether two places are those of two different DATE columns.
#[tactic(auto, unfolding(crate::specs::create::Places::are_dates))]
pub fn are_dates(columns: &[Column], start: Option<usize>, end: Option<usize>) -> bool
    ensures { result ≡ are_dates columns.now start end }
{
    match (start, end) {
        (Some(start), Some(end)) => {
            start != end && is_date_place(columns, start) && is_date_place(columns, end)
        }
        _ => false,
    }
}

/// Whether the places are those of a table's key, in some order.
#[tactic(auto, unfolding(crate::specs::create::Places::are_key_places))]
fn are_key_places(table: &TableDef, places: &[usize]) -> bool
    ensures { result ≡ are_key_places table.now places.now }
{
    let key = table.key.as_slice();
    are_among(key, places) && are_among(places, key)
}

/// Whether columns at the same place of two lists of places are of two kinds.
#[tactic(auto, unfolding(crate::specs::create::Places::have_two_kinds))]
fn have_two_kinds(columns: &[Column], others: &[Column], own: &[usize], keys: &[usize]) -> bool
    ensures { result ≡ have_two_kinds columns.now others.now own.now keys.now }
{
    for i in 0..own.len().min(keys.len()) {
        if differ(kind_at(columns, own[i]), kind_at(others, keys[i])) {
            return true;
        }
    }
    false
}

/// Whether a reference is to other columns than its parent's key.
#[tactic(auto, unfolding(crate::specs::create::Places::refers_to_no_key))]
fn refers_to_no_key(catalog: &Catalog, reference: &Reference) -> bool
    ensures { result ≡ refers_to_no_key catalog.now.tables reference.now }
{
    match catalog.def(reference.parent) {
        Some(parent) => !are_key_places(parent, reference.keys.as_slice()),
        None => false,
    }
}

/// Whether a reference, of a table with these columns, is to columns of other kinds.
#[tactic(auto, unfolding(crate::specs::create::Places::refers_to_other_kind))]
fn refers_to_other_kind(catalog: &Catalog, columns: &[Column], reference: &Reference) -> bool
    ensures { result ≡ refers_to_other_kind catalog.now.tables columns.now reference.now }
{
    match catalog.def(reference.parent) {
        Some(parent) => have_two_kinds(
            columns,
            parent.columns.as_slice(),
            reference.own.as_slice(),
            reference.keys.as_slice(),
        ),
        None => false,
    }
}

/// Whether one of the references is to columns that are not its parent's key.
pub fn some_refer_to_no_key(catalog: &Catalog, references: &[Reference]) -> bool
    ensures { result ≡ list_any (refers_to_no_key catalog.now.tables) references.now }
{
    references.iter().any(|x| refers_to_no_key(catalog, x))
}

/// Whether one of the references has a column of another kind than the parent's in its place.
pub fn some_refer_to_other_kind(
    catalog: &Catalog,
    columns: &[Column],
    references: &[Reference],
) -> bool
    ensures { result
        ≡ list_any (refers_to_other_kind catalog.now.tables columns.now) references.now }
{
    references
        .iter()
        .any(|x| refers_to_other_kind(catalog, columns, x))
}
