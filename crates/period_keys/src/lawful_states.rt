//! Whether rows in memory hold a lawful state: on no day do two rows of a table share its key, and
//! each row has its parents. The rows are judged where they are: no list of them is made.

ghost use Rattle.std.specs.Prelude.{◌≡◌, ◌↔◌, Contains, IfOk, IsTrue, Some, length, map};
ghost use Rattle.catalog_core.specs.table.TableWords.{table_of};
ghost use Rattle.history_model.specs.Histories.{State};
ghost use Rattle.period_keys.specs.Current.{AreReferencesIndexed, HaveIndexes, HoldCurrent};
ghost use Rattle.period_keys.specs.Current.{HoldsCurrent, rows_by_key};
ghost use Rattle.period_keys.specs.Lawful.{IsCoveredBy, IsLawfulState, IsLawfulTable};

use crate::current_rows::CurrentRows;
use crate::positions::positions_of;
use crate::reference_faults::periods_by;
use crate::references::uncovered_by_periods;
use crate::sweep::current_rows_clash;
use crate::table_index::TableIndex;
use catalog_core::{Catalog, Reference, TableDef, of_number};
use period_core::Memory;
use std::alloc::Global;

/// Whether the rows of all tables hold a lawful state.
pub fn is_lawful(alloc: Global, catalog: &Catalog, tables: &[TableIndex]) -> Result<bool, Memory>
    requires count { length tables.now ≡ length catalog.now.tables }
    requires indexed { HaveIndexes catalog.now.tables tables.now }
    ensures { IfOk result (λ lawful. (state : State)
        → HoldCurrent catalog.now.tables state (map rows_by_key tables.now)
        → (IsTrue lawful ↔ IsLawfulState catalog.now.tables state)) }
{
    let definitions = catalog.tables.as_slice();
    for place in 0..definitions.len() {
        let rows = tables[place].rows();
        let table = &definitions[place];
        if !is_table_lawful(alloc, definitions, tables, place + 1, table, rows)? {
            return Ok(false);
        }
    }
    Ok(true)
}

// Whether no two rows of the table of a number share its key on a day, and each has its parents.
fn is_table_lawful(
    alloc: Global,
    definitions: &[TableDef],
    tables: &[TableIndex],
    number: usize,
    table: &TableDef,
    rows: &CurrentRows,
) -> Result<bool, Memory>
    requires indexed { AreReferencesIndexed definitions.now tables.now number table.now }
    requires table { table_of definitions.now number ≡ Some table.now }
    ensures { IfOk result (λ lawful. (state : State)
        → HoldCurrent definitions.now state (map rows_by_key tables.now)
        → HoldsCurrent state number table.now rows.now
        → (IsTrue lawful ↔ IsLawfulTable definitions.now state number table.now)) }
{
    let clash = current_rows_clash(alloc, rows)?;
    if clash.is_some() {
        return Ok(false);
    }
    let references = table.references.as_slice();
    for reference in references {
        if !is_covered(alloc, definitions, tables, number, table, reference)? {
            return Ok(false);
        }
    }
    Ok(true)
}

// Whether each row of the table of a number has its parent by this reference.
fn is_covered(
    alloc: Global,
    definitions: &[TableDef],
    tables: &[TableIndex],
    number: usize,
    child: &TableDef,
    reference: &Reference,
) -> Result<bool, Memory>
    requires indexed { AreReferencesIndexed definitions.now tables.now number child.now }
    requires child { table_of definitions.now number ≡ Some child.now }
    requires reference { Contains child.now.references reference.now }
    ensures { IfOk result (λ covered. (state : State)
        → HoldCurrent definitions.now state (map rows_by_key tables.now)
        → (IsTrue covered
        ↔ IsCoveredBy definitions.now state number child.now reference.now)) }
{
    let Some(parent) = of_number(definitions, reference.parent) else {
        return Ok(true);
    };
    let own = positions_of(alloc, child, reference.own.as_slice())?;
    let keys = positions_of(alloc, parent, reference.keys.as_slice())?;
    let children = periods_by(tables, number, own.as_slice());
    let parents = periods_by(tables, usize::from(reference.parent), keys.as_slice());
    let found = uncovered_by_periods(alloc, &children, &parents)?;
    Ok(found.is_none())
}
