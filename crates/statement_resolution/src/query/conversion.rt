//! The parts of a select, with positions in place of names, and their faults.

ghost use Rattle.std.specs.Prelude.{◌≡◌, ◌++◌, ◌+◌, ◌<◌, ◌∷◌, [], IfOk, length};
ghost use Rattle.std.specs.Prelude.{map, true};
ghost use Rattle.sql_statements.specs.Plain.{plain_condition};
ghost use Rattle.statement_resolution.specs.Faults.{either, faults_among};
ghost use Rattle.statement_resolution.specs.query.Faults as judged;
ghost use Rattle.statement_resolution.specs.query.Faults.{lacks_any, lacks_one, missing_fault};
ghost use Rattle.catalog_core.specs.query.Fitting.{are_in_place};
ghost use Rattle.statement_resolution.specs.query.Places.{place_among, placed_item, placed_members};
ghost use Rattle.statement_resolution.specs.query.Places.{placed_reference};
ghost use Rattle.statement_resolution.specs.query.Resolving as words;
ghost use Rattle.statement_resolution.specs.query.Resolving.{conjunct_parts, members};
ghost use Rattle.statement_resolution.specs.query.Resolving.{reference_parts};
ghost use Rattle.catalog_core.specs.query.Selection.{item_parts};

use crate::faults::Faults;
use crate::query::scope::Scope;
use crate::resolver::resolve_condition;
use crate::system_window::window_of;
use catalog_core::resolved::QueryReference;
use catalog_core::{
    AnswerColumn, Catalog, Cond, TableDef, ValueKind, is_value_column, kind_of_column, name_or,
};
use period_core::{Items, Memory};
use sql_statements::{Compare, SelectItem, TableReference, Tree};
use std::alloc::Global;

/// The first member of a condition's outermost AND, and the rest. The parser gives a chain of OR
/// even if it has one part, so an OR of one part counts as that part.
fn outer_and(condition: &Tree<Compare>) -> (&Tree<Compare>, &[Tree<Compare>])
    ensures { members (plain_condition condition.now)
        ≡ plain_condition result.0.now ∷ map plain_condition result.1.now }
{
    match condition {
        Tree::And(first, others) => (first, others.as_slice()),
        Tree::Or(only, others) => {
            if others.is_empty() {
                outer_and(only)
            } else {
                (condition, &[])
            }
        }
        Tree::Not(_) => (condition, &[]),
        Tree::Test(_) => (condition, &[]),
    }
}

/// Adds the members of a condition's outermost AND, and the condition's faults.
pub fn push_members(
    alloc: Global,
    scope: &Scope<'_>,
    condition: &Tree<Compare>,
    conjuncts: &mut Vec<Cond>,
    faults: &mut Faults,
) -> Result<(), Memory>
    ensures placed { IfOk result (λ _. map conjunct_parts conjuncts.new.items
        ≡ map conjunct_parts conjuncts.old.items
        ++ placed_members (place_among scope.now.before.now scope.now.seen.now)
        (plain_condition condition.now)) }
    ensures faults { IfOk result (λ _. faults.new ≡ either faults.old
        (judged.condition_faults scope.now.seen.now (plain_condition condition.now))) }
{
    let (first, others) = outer_and(condition);
    conjuncts.push(resolve_condition(alloc, scope, first, faults)?)?;
    for part in others {
        conjuncts.push(resolve_condition(alloc, scope, part, faults)?)?;
    }
    Ok(())
}

/// The items by positions, with their names. The kinds of their columns are added to none, and
/// their faults to those found so far.
pub fn convert_items(
    alloc: Global,
    scope: &Scope<'_>,
    items: &[SelectItem],
    kinds: &mut Vec<Option<ValueKind>>,
    faults: &mut Faults,
) -> Result<Vec<AnswerColumn>, Memory>
    requires { kinds.old.items ≡ [] }
    ensures numbered { IfOk result (λ numbered.
        map (placed_item (place_among scope.now.before.now scope.now.seen.now)) items.now
        ≡ map item_parts numbered.items) }
    ensures kinds { IfOk result
        (λ _. kinds.new.items ≡ judged.item_kinds scope.now.seen.now items.now) }
    ensures faults { IfOk result (λ _. faults.new ≡ either faults.old
        (faults_among (judged.item_faults scope.now.seen.now) items.now)) }
{
    let mut numbered = Vec::with_capacity(alloc, items.len())?;
    for item in items {
        let named = scope.look_up(&item.column);
        kinds.push(named.matched.kind)?;
        *faults = faults.or(named.matched.faults());
        let name = name_or(&item.new_name, &item.column.name).copy(alloc)?;
        numbered.push(AnswerColumn {
            position: named.position,
            name,
        })?;
    }
    Ok(numbered)
}

/// The kinds of a table's values.
fn value_kinds(alloc: Global, table: &TableDef) -> Result<Vec<ValueKind>, Memory>
    ensures { IfOk result (λ kinds. kinds.items ≡ words.value_kinds table.now) }
{
    let columns = table.columns.as_slice();
    let mut kinds = Vec::new(alloc);
    for i in 0..columns.len() {
        let column = &columns[i];
        if is_value_column(table, i, column) {
            kinds.push(kind_of_column(column.kind))?;
        }
    }
    Ok(kinds)
}

/// A reference by its table's number: 0 for a table that is missing, a fault that is added to those
/// found so far.
fn convert_reference(
    alloc: Global,
    catalog: &Catalog,
    reference: &TableReference,
    place: usize,
    faults: &mut Faults,
) -> Result<QueryReference, Memory>
    ensures parts { IfOk result (λ numbered.
        placed_reference catalog.now.tables reference.now ≡ reference_parts numbered) }
    ensures placed { IfOk result (λ numbered. numbered.place ≡ place) }
    ensures faults { IfOk result (λ _. faults.new
        ≡ either faults.old (missing_fault (lacks_one catalog.now.tables reference.now))) }
{
    let window = window_of(&reference.window);
    let Some((number, table)) = catalog.table_named(&reference.table) else {
        *faults = faults.or(Faults {
            table: true,
            ..Faults::none()
        });
        return Ok(QueryReference {
            place,
            table: 0,
            window,
            kinds: Items::empty(alloc),
        });
    };
    let kinds = value_kinds(alloc, table)?;
    Ok(QueryReference {
        place,
        table: number,
        window,
        kinds: Items::from_vec(kinds),
    })
}

/// References by their tables' numbers. Their places count up from this one, and a fault is added
/// to those found so far if a table is missing.
pub fn convert_references(
    alloc: Global,
    catalog: &Catalog,
    references: &[&TableReference],
    place: usize,
    faults: &mut Faults,
) -> Result<Vec<QueryReference>, Memory>
    requires { place + length references.now < 1_000 }
    ensures parts { IfOk result (λ numbered.
        map (placed_reference catalog.now.tables) (map (λ r. r.now) references.now)
        ≡ map reference_parts numbered.items) }
    ensures placed { IfOk result (λ numbered. are_in_place place numbered.items ≡ true) }
    ensures faults { IfOk result (λ _. faults.new ≡ either faults.old
        (missing_fault (lacks_any catalog.now.tables (map (λ r. r.now) references.now)))) }
{
    let mut numbered = Vec::new(alloc);
    let mut next = place;
    for reference in references {
        numbered.push(convert_reference(alloc, catalog, *reference, next, faults)?)?;
        next += 1;
    }
    Ok(numbered)
}
