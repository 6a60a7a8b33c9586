//! The columns and the references that a CREATE declares, with places for names, and the definition
//! that a sound one gives.

ghost use Rattle.std.specs.Prelude.{◌∷◌, ◌≡◌, ◌<◌, [], IfOk, Some, false, true, is_none};
ghost use Rattle.std.specs.Prelude.{is_some, length, map};
ghost use Rattle.std.specs.List.{list_all, list_any};
ghost use Rattle.sql_statements.specs.declared.create.KeyElement.{KeyElement};
ghost use Rattle.sql_statements.specs.declared.create.PeriodElement.{PeriodElement};
ghost use Rattle.catalog_core.specs.create.Creation.{has_bad_column, is_bad_type, lacks_parent};
ghost use Rattle.catalog_core.specs.create.Creation.{some_match, some_own_match};
ghost use Rattle.catalog_core.specs.create.Creation.{some_parent_match};
ghost use Rattle.catalog_core.specs.create.Definition.{column_parts, declared_column};
ghost use Rattle.catalog_core.specs.create.Definition.{declared_key, declared_kind};
ghost use Rattle.catalog_core.specs.create.Definition.{declared_period, declared_reference};
ghost use Rattle.catalog_core.specs.create.Definition.{is_reference_if_equal, own_place};
ghost use Rattle.catalog_core.specs.create.Definition.{parent_of, reference_parts};
ghost use Rattle.catalog_core.specs.table.IsDefinition.{is_reference};
ghost use Rattle.catalog_core.specs.declared.table.match_counts.MatchCount.TheVariants.{Zero};

use crate::table::catalog::Catalog;
use crate::table::columns::def_places;
use crate::table::named::{place_among, places_among};
use crate::table::{Column, ColumnKind, PeriodColumns, Reference, TableDef};
use period_core::{Items, Memory};
use sql_statements::{ColumnElement, CreateTable, Generated, Name, ReferenceElement, TypeName};
use std::alloc::Global;

/// The place of the statement's column with a name.
pub fn own_place(create: &CreateTable, name: &Name) -> Option<usize>
    ensures { result ≡ own_place create.now name.now }
{
    place_among(create.columns.as_slice(), name)
}

/// The places of the statement's columns with the names.
fn own_places(alloc: Global, create: &CreateTable, names: &[Name]) -> Result<Vec<usize>, Memory>
    requires { some_own_match create.now Zero names.now ≡ false }
    ensures { IfOk result (λ v. map (own_place create.now) names.now ≡ map (λ i. Some i) v.items) }
{
    places_among(alloc, create.columns.as_slice(), names)
}

/// The kind of a declared column.
#[tactic(auto, unfolding(crate::specs::create::Definition::declared_kind, crate::specs::create::Creation::is_bad_type))]
fn declared_kind(kind: TypeName, generated: Option<Generated>) -> ColumnKind
    requires { is_bad_type kind (is_some generated) ≡ false }
    ensures { declared_kind kind generated ≡ Some result }
{
    match (kind, generated) {
        (TypeName::Integer, None) => ColumnKind::Integer,
        (TypeName::Date, None) => ColumnKind::Date,
        (TypeName::Varchar(n), None) => ColumnKind::Varchar(n as u16),
        (TypeName::Timestamp(None), Some(Generated::Start)) => ColumnKind::RowStart(None),
        (TypeName::Timestamp(None), Some(Generated::End)) => ColumnKind::RowEnd(None),
        (TypeName::Timestamp(Some(p)), Some(Generated::Start)) => ColumnKind::RowStart(Some(
            p as u8,
        )),
        (TypeName::Timestamp(Some(p)), Some(Generated::End)) => ColumnKind::RowEnd(Some(p as u8)),
        _ => unreachable!(),
    }
}

/// A declared column.
fn declared_column(alloc: Global, element: &ColumnElement) -> Result<Column, Memory>
    requires { is_bad_type element.now.kind (is_some element.now.generated) ≡ false }
    ensures { IfOk result (λ x. declared_column element.now ≡ column_parts x) }
{
    Ok(Column {
        name: element.name.copy(alloc)?,
        kind: declared_kind(element.kind, element.generated),
    })
}

/// The declared columns.
pub fn declared_columns(alloc: Global, create: &CreateTable) -> Result<Vec<Column>, Memory>
    requires { has_bad_column create.now ≡ false }
    ensures { IfOk result
        (λ v. map declared_column create.now.columns ≡ map column_parts v.items) }
{
    let mut columns = Vec::new(alloc);
    for element in create.columns.as_slice() {
        columns.push(declared_column(alloc, element)?)?;
    }
    Ok(columns)
}

/// A reference by numbers. Its two lists may be of unequal length.
#[tactic(auto, unfolding(crate::specs::create::Definition::declared_reference, crate::specs::table::TableWords::table_of_name))]
fn declared_reference(
    alloc: Global,
    catalog: &Catalog,
    create: &CreateTable,
    element: &ReferenceElement,
) -> Result<Reference, Memory>
    requires there { is_none (parent_of catalog.now.tables element.now) ≡ false }
    requires own { some_own_match create.now Zero element.now.columns ≡ false }
    requires keys { some_parent_match catalog.now.tables Zero element.now ≡ false }
    ensures value { IfOk result
        (λ x. declared_reference catalog.now.tables create.now element.now ≡ reference_parts x) }
    ensures kept { IfOk result
        (λ x. is_reference_if_equal (length create.now.columns) x ≡ true) }
{
    let Some((parent, table)) = catalog.table_named(&element.parent) else {
        unreachable!()
    };
    let own = own_places(alloc, create, element.columns.as_slice())?;
    let keys = def_places(alloc, table, element.parent_columns.as_slice())?;
    Ok(Reference {
        parent,
        own: Items::from_vec(own),
        keys: Items::from_vec(keys),
    })
}

/// The references by numbers.
pub fn declared_references(
    alloc: Global,
    catalog: &Catalog,
    create: &CreateTable,
) -> Result<Vec<Reference>, Memory>
    requires there { lacks_parent catalog.now.tables create.now ≡ false }
    requires names { some_match catalog.now.tables create.now Zero ≡ false }
    ensures value { IfOk result
        (λ v. map (declared_reference catalog.now.tables create.now) create.now.references
        ≡ map reference_parts v.items) }
    ensures kept { IfOk result
        (λ v. list_all (is_reference_if_equal (length create.now.columns)) v.items ≡ true) }
{
    let mut references = Vec::new(alloc);
    for element in create.references.as_slice() {
        references.push(declared_reference(alloc, catalog, create, element)?)?;
    }
    Ok(references)
}

/// The definition with these columns and references.
pub fn build(
    alloc: Global,
    create: &CreateTable,
    columns: Vec<Column>,
    references: Vec<Reference>,
) -> Result<TableDef, Memory>
    requires period { length create.now.periods ≡ 1 }
    requires key { length create.now.keys ≡ 1 }
    requires types { has_bad_column create.now ≡ false }
    requires columns { map declared_column create.now.columns ≡ map column_parts columns.items }
    requires sides { list_any
        (λ (x : PeriodElement). some_own_match create.now Zero (x.start ∷ x.end ∷ []))
        create.now.periods ≡ false }
    requires keys { list_any (λ (x : KeyElement). some_own_match create.now Zero x.columns)
        create.now.keys ≡ false }
    requires references { list_all (is_reference (length create.now.columns)) references.items
        ≡ true }
    ensures name { IfOk result (λ d. d.name ≡ create.now.name) }
    ensures columns { IfOk result (λ d. d.columns ≡ columns.items) }
    ensures period { IfOk result (λ d. map (declared_period create.now) create.now.periods
        ≡ (d.period.name, Some d.period.start, Some d.period.end) ∷ []) }
    ensures key { IfOk result
        (λ d. map (declared_key create.now) create.now.keys ≡ map (λ i. Some i) d.key ∷ []) }
    ensures references { IfOk result (λ d. d.references ≡ references.items) }
{
    let [period] = create.periods.as_slice() else {
        unreachable!()
    };
    let [key] = create.keys.as_slice() else {
        unreachable!()
    };
    let Some(start) = own_place(create, &period.start) else {
        unreachable!()
    };
    let Some(end) = own_place(create, &period.end) else {
        unreachable!()
    };
    let places = own_places(alloc, create, key.columns.as_slice())?;
    Ok(TableDef {
        name: create.name.copy(alloc)?,
        columns: Items::from_vec(columns),
        period: PeriodColumns {
            name: period.name.copy(alloc)?,
            start,
            end,
        },
        key: Items::from_vec(places),
        references: Items::from_vec(references),
    })
}
