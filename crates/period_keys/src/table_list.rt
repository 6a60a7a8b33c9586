//! The current rows of all tables of a catalog, with the indexes that its references need.

ghost use Rattle.std.specs.Prelude.{◌≡◌, ◌<◌, ◌+◌, ◌++◌, ◌∷◌, [], IfOk, OnErr, OnOk, length};
ghost use Rattle.std.specs.Prelude.{map};
ghost use Rattle.period_keys.specs.Current.{AreParentsIndexed, AreReferencesIndexed};
ghost use Rattle.period_keys.specs.Current.{HaveIndexes, HaveMoreIndexes, IsIndexedAsChild};
ghost use Rattle.period_keys.specs.Current.{IsParentIndexed, ReferToEarlier, rows_by_key};
ghost use Rattle.period_keys.specs.Lawful.{key_positions};
ghost use Rattle.period_keys.specs.TableRows.{HasMoreIndexes};

use crate::current_rows::CurrentRows;
use crate::positions::positions_of;
use crate::table_index::TableIndex;
use catalog_core::{Catalog, Reference, TableDef, of_number};
use period_core::{Items, Memory};
use std::alloc::Global;

/// The current rows of each table of a catalog, with the indexes that its references need.
pub fn tables_of(
    alloc: Global,
    catalog: &Catalog,
    rows: Vec<CurrentRows>,
) -> Result<Vec<TableIndex>, Memory>
    requires { length rows.items ≡ length catalog.now.tables }
    ensures rows { IfOk result (λ tables. map rows_by_key tables.items ≡ rows.items) }
    ensures indexed { IfOk result (λ tables. HaveIndexes catalog.now.tables tables.items) }
{
    let mut tables = Vec::new(alloc);
    for table in rows {
        tables.push(TableIndex::new(alloc, table))?;
    }
    index_all(alloc, catalog.tables.as_slice(), tables.as_mut_slice())?;
    Ok(tables)
}

/// Adds a table without rows, which the catalog does not have yet, with the indexes that its
/// references to earlier tables need. On an error no table is added, and those that exist have
/// the same rows. They may have an index more, which no one asks for.
pub fn add_table(
    alloc: Global,
    catalog: &Catalog,
    tables: &mut Vec<TableIndex>,
    definition: &TableDef,
) -> Result<(), Memory>
    requires there { length tables.old.items ≡ length catalog.now.tables }
    requires earlier { ReferToEarlier (catalog.now.tables ++ definition.now ∷ []) }
    ensures rows { OnOk result (map rows_by_key tables.new.items
        ≡ map rows_by_key tables.old.items
        ++ record { positions = key_positions definition.now; rows = [] } ∷ []) }
    ensures indexed { OnOk result (HaveIndexes catalog.now.tables tables.old.items
        → HaveIndexes (catalog.now.tables ++ definition.now ∷ []) tables.new.items) }
    ensures err { OnErr result (HaveMoreIndexes tables.old.items tables.new.items) }
{
    let key = positions_of(alloc, definition, definition.key.as_slice())?;
    let mut table = TableIndex::new(alloc, CurrentRows::new(alloc, Items::from_vec(key)));
    index_as_child(alloc, definition, &mut table)?;
    index_parents(
        alloc,
        catalog.tables.as_slice(),
        definition,
        tables.as_mut_slice(),
    )?;
    tables.push(table)?;
    Ok(())
}

// Gives each table the indexes that the references of all tables need.
fn index_all(
    alloc: Global,
    definitions: &[TableDef],
    tables: &mut [TableIndex],
) -> Result<(), Memory>
    requires { length tables.old ≡ length definitions.now }
    ensures ok { OnOk result (HaveIndexes definitions.now tables.new) }
    ensures kept { HaveMoreIndexes tables.old tables.new }
{
    for place in 0..definitions.len() {
        index_table(alloc, definitions, tables, place, &definitions[place])?;
    }
    Ok(())
}

// Gives the tables the indexes that the references of the table at a place need.
fn index_table(
    alloc: Global,
    definitions: &[TableDef],
    tables: &mut [TableIndex],
    place: usize,
    child: &TableDef,
) -> Result<(), Memory>
    requires count { length tables.old ≡ length definitions.now }
    requires place { place < length tables.old }
    ensures ok { OnOk result
        (AreReferencesIndexed definitions.now tables.new (place + 1) child.now) }
    ensures kept { HaveMoreIndexes tables.old tables.new }
{
    index_as_child(alloc, child, &mut tables[place])?;
    index_parents(alloc, definitions, child, tables)
}

// Indexes a child's rows by the own columns of each of its references.
fn index_as_child(alloc: Global, child: &TableDef, table: &mut TableIndex) -> Result<(), Memory>
    ensures ok { OnOk result (IsIndexedAsChild child.now table.new) }
    ensures kept { HasMoreIndexes table.old table.new }
{
    let references = child.references.as_slice();
    for reference in references {
        let own = positions_of(alloc, child, reference.own.as_slice())?;
        table.index_once(alloc, Items::from_vec(own))?;
    }
    Ok(())
}

// Indexes the rows of a child's parents by the columns that it refers to, but for the key of each.
fn index_parents(
    alloc: Global,
    definitions: &[TableDef],
    child: &TableDef,
    tables: &mut [TableIndex],
) -> Result<(), Memory>
    requires { length tables.old ≡ length definitions.now }
    ensures ok { OnOk result (AreParentsIndexed definitions.now child.now tables.new) }
    ensures kept { HaveMoreIndexes tables.old tables.new }
{
    let references = child.references.as_slice();
    for reference in references {
        index_parent(alloc, definitions, reference, tables)?;
    }
    Ok(())
}

// Indexes the rows of a reference's parent by the columns that it refers to.
fn index_parent(
    alloc: Global,
    definitions: &[TableDef],
    reference: &Reference,
    tables: &mut [TableIndex],
) -> Result<(), Memory>
    requires { length tables.old ≡ length definitions.now }
    ensures ok { OnOk result (IsParentIndexed definitions.now reference.now tables.new) }
    ensures kept { HaveMoreIndexes tables.old tables.new }
{
    let Some(parent) = of_number(definitions, reference.parent) else {
        return Ok(());
    };
    let keys = positions_of(alloc, parent, reference.keys.as_slice())?;
    let place = usize::from(reference.parent) - 1;
    tables[place].index_once(alloc, Items::from_vec(keys))
}
