//! Whether tables are a query's: a list for each of its references, of rows of that table.

ghost use Rattle.std.specs.Prelude.{◌≡◌, ◌+◌, ◌<◌, ◌≤◌, IfNone, IfSome, length, true};
ghost use Rattle.std.specs.List.{list_all};
ghost use Rattle.catalog_core.specs.query.Fitting.{are_in_place, fits, has_kinds, sees_its_kinds};
ghost use Rattle.catalog_core.specs.query.Queries.{plain_query, references_of};

use crate::query::resolved::{Query, QueryReference, Tables};
use crate::table::ValueKind;
use crate::table::kinds::{kind_of_value, same_kind};
use period_core::Value;

/// Whether the values have the kinds given, in order.
fn has_kinds(kinds: &[ValueKind], values: &[Value]) -> bool
    ensures { result ≡ has_kinds kinds.now values.now }
{
    let [kind, more_kinds @ ..] = kinds else {
        return values.is_empty();
    };
    let [value, more_values @ ..] = values else {
        return false;
    };
    same_kind(*kind, kind_of_value(value)) && has_kinds(more_kinds, more_values)
}

/// Whether each row that the reference sees has its table's kinds.
fn sees_its_kinds(tables: &Tables, reference: &QueryReference) -> bool
    ensures { result ≡ sees_its_kinds tables.now reference.now }
{
    let (rows, kinds) = (tables.rows_for(reference), reference.kinds.as_slice());
    rows.iter()
        .all(|row| has_kinds(kinds, row.values.as_slice()))
}

/// Whether all references of the query see rows of their tables' kinds.
fn all_fit(query: &Query, tables: &Tables) -> bool
    ensures { result
        ≡ list_all (sees_its_kinds tables.now) (references_of (plain_query query.now)) }
{
    match query {
        Query::Select(select) => {
            for reference in select.references.as_slice() {
                if !sees_its_kinds(tables, reference) {
                    return false;
                }
            }
            true
        }
        Query::Combined(_, left, right) => all_fit(left, tables) && all_fit(right, tables),
    }
}

/// The place after the references, if their places count up from this one and all are below the
/// bound.
fn next_place(references: &[QueryReference], place: usize, bound: usize) -> Option<usize>
    requires { place ≤ bound }
    ensures some { IfSome result (λ next. (are_in_place place references.now ≡ true)
        × (place + length references.now ≡ next) × (next ≤ bound)) }
    ensures none { IfNone result (are_in_place place references.now ≡ true
        → bound < place + length references.now) }
{
    let [reference, more @ ..] = references else {
        return Some(place);
    };
    if reference.place != place || place == bound {
        return None;
    }
    next_place(more, place + 1, bound)
}

/// The next place among all references of the query.
fn next_place_in_query(query: &Query, place: usize, bound: usize) -> Option<usize>
    requires { place ≤ bound }
    ensures some { IfSome result (λ next.
        (are_in_place place (references_of (plain_query query.now)) ≡ true)
        × (place + length (references_of (plain_query query.now)) ≡ next) × (next ≤ bound)) }
    ensures none { IfNone result
        (are_in_place place (references_of (plain_query query.now)) ≡ true
        → bound < place + length (references_of (plain_query query.now))) }
{
    match query {
        Query::Select(select) => next_place(select.references.as_slice(), place, bound),
        Query::Combined(_, left, right) => {
            let Some(next) = next_place_in_query(left, place, bound) else {
                return None;
            };
            next_place_in_query(right, next, bound)
        }
    }
}

/// Whether the tables are the query's: one list for each of its references, each row with the kinds
/// of that reference. The places of the references count up from 0, as `resolve_query` gives them;
/// if they do not, no tables are the query's. It takes no memory.
pub fn fits(query: &Query, tables: &Tables) -> bool
    ensures { result ≡ fits (plain_query query.now) tables.now }
{
    let lists = tables.as_slice().len();
    let Some(next) = next_place_in_query(query, 0, lists) else {
        return false;
    };
    next == lists && all_fit(query, tables)
}
