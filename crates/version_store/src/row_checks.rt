//! The rows of the three tables, judged.

ghost use Rattle.std.specs.Prelude.{◌≡◌, ◌≤◌, ◌<◌, ℕ, ℤ, List, [], IfErr, IfOk, OnOk, true};
ghost use Rattle.std.specs.Prelude.{length};
ghost use Rattle.std.specs.List.{All};
ghost use Rattle.catalog_core.specs.Limits.{most_tables};
ghost use Rattle.catalog_core.specs.table.TableWords.{has_date_period, has_distinct_names};
ghost use Rattle.period_core.specs.declared.version.VersionRow.{VersionRow as AnyRow};
ghost use Rattle.period_core.specs.Encoding.{IsColumnValue, IsEncoding, encoded};
ghost use Rattle.period_core.specs.declared.decoding.DecodeFault.TheVariants.{Malformed};
ghost use Rattle.catalog_core.specs.declared.table.TableDef.{TableDef as AnyTable};
ghost use Rattle.version_tables.specs.declared.form.Form.{Form as AnyForm};
ghost use Rattle.version_store.specs.Contents.{HasMore, rows_of_table};
ghost use Rattle.version_store.specs.Faults.{IsJudgement};
ghost use Rattle.version_store.specs.GoodStore.{AreDefinitions, AreTables, IsReadAs, IsTableRow};
ghost use Rattle.version_store.specs.GoodStore.{IsVersionRow};
ghost use Rattle.version_store.specs.declared.fault.OpenFault.TheVariants.{BadStore};

use crate::fault::OpenFault;
use crate::row_values::are_row_values;
use crate::version_reader::dated_row;
use catalog_core::{Catalog, MOST_TABLES, TableDef, decode_def, lawful};
use period_core::{DecodeFault, Items, Memory, Value, Values, VersionRow, decode_values};
use sqlite::Row;
use std::alloc::Global;
use version_tables::{Form, bytes_at, clock_of, is_definition, is_version, number_at};

/// The definition that a row has, the next after the catalog's.
fn read_table(alloc: Global, catalog: &Catalog, row: &Row) -> Result<TableDef, OpenFault>
    requires { length catalog.now.tables ≤ most_tables }
    ensures good { IfOk result (IsTableRow catalog.now.tables row.now) }
    ensures dated { IfOk result (λ d. has_date_period d ≡ true) }
    ensures distinct { IfOk result (λ d. has_distinct_names d ≡ true) }
    ensures bad { IfErr result (λ fault. fault ≡ BadStore
        → (d : AnyTable) → ¬ IsTableRow catalog.now.tables row.now d) }
    ensures named { IfErr result IsJudgement }
{
    if !is_definition(row, catalog.len() as u32 + 1) {
        return Err(OpenFault::BadStore);
    }
    let Some(bytes) = bytes_at(row, 1) else {
        return Err(OpenFault::BadStore);
    };
    let definition = decode_def(alloc, bytes)?;
    if lawful(catalog, &definition) {
        Ok(definition)
    } else {
        Err(OpenFault::BadStore)
    }
}

/// The catalog of the definitions that the rows have.
fn read_tables(alloc: Global, rows: &[Row]) -> Result<Catalog, OpenFault>
    ensures good { IfOk result (λ catalog. AreTables rows.now catalog.tables) }
    ensures bad { IfErr result (λ fault. fault ≡ BadStore
        → (tables : List AnyTable) → ¬ AreTables rows.now tables) }
    ensures named { IfErr result IsJudgement }
{
    let mut catalog = Catalog::new(alloc);
    if rows.len() > MOST_TABLES {
        return Err(OpenFault::BadStore);
    }
    for row in rows {
        let definition = read_table(alloc, &catalog, row)?;
        catalog.push(definition)?;
    }
    Ok(catalog)
}

/// The values whose encoding these bytes are, in a list without room for more: those of a current
/// row stay in memory.
fn exact_values(alloc: Global, bytes: &[u8]) -> Result<Vec<Value>, DecodeFault>
    ensures found { IfOk result (λ values. encoded values.items ≡ bytes.now) }
    ensures held { IfOk result (λ values. All IsColumnValue values.items) }
    ensures malformed { IfErr result (λ fault. fault ≡ Malformed → IsEncoding bytes.now → ⊥) }
{
    let mut values = decode_values(alloc, bytes)?;
    values.shrink_to_fit();
    Ok(values)
}

/// Judges the row of a version, by the form, the tables and the clock. On `Ok` it has the number of
/// its table, and what it is read as.
fn check_version(
    alloc: Global,
    form: Form,
    catalog: &Catalog,
    clock: i64,
    row: &Row,
) -> Result<(u8, VersionRow), OpenFault>
    ensures good { IfOk result
        (λ found. IsReadAs form catalog.now.tables clock row.now found.0 found.1) }
    ensures bad { IfErr result (λ fault. fault ≡ BadStore
        → ¬ IsVersionRow form catalog.now.tables clock row.now) }
    ensures named { IfErr result IsJudgement }
{
    if !is_version(row, form, clock, catalog.len() as u32) {
        return Err(OpenFault::BadStore);
    }
    let Some(number) = number_at(row, 0) else {
        return Err(OpenFault::BadStore);
    };
    let Some(bytes) = bytes_at(row, 1) else {
        return Err(OpenFault::BadStore);
    };
    let Ok(number) = u8::try_from(number) else {
        return Err(OpenFault::BadStore);
    };
    let Some(definition) = catalog.def(number) else {
        return Err(OpenFault::BadStore);
    };
    let values = exact_values(alloc, bytes)?;
    if !are_row_values(definition, values.as_slice()) {
        return Err(OpenFault::BadStore);
    }
    let Some(version) = dated_row(form, row, Values::from_vec(values)) else {
        return Err(OpenFault::BadStore);
    };
    Ok((number, version))
}

/// Makes `count` lists without rows.
pub(crate) fn no_rows(alloc: Global, count: usize) -> Result<Vec<Items<VersionRow>>, Memory>
    ensures count { IfOk result (λ lists. length lists.items ≡ count) }
    ensures none { IfOk result (λ lists. (number : ℕ) → rows_of_table lists.items number ≡ []) }
{
    let mut lists = Vec::new(alloc);
    'lists: for _turn in 0..count {
        lists.push(Items::empty(alloc))?;
    }
    Ok(lists)
}

/// Adds a row to the list of the table of a number, which exists.
fn push_row(lists: &mut Vec<Items<VersionRow>>, number: u8, row: VersionRow) -> Result<(), Memory>
    requires { (0 < number) × (number ≤ length lists.old.items) }
    ensures { OnOk result (HasMore number row lists.old.items lists.new.items) }
{
    let Some(list) = lists.get_mut(usize::from(number) - 1) else {
        unreachable!()
    };
    list.push(row)
}

/// Judges the row of a version, and adds what it is read as to the list of its table.
pub(crate) fn read_row(
    alloc: Global,
    form: Form,
    catalog: &Catalog,
    clock: i64,
    row: &Row,
    lists: &mut Vec<Items<VersionRow>>,
) -> Result<(), OpenFault>
    requires { length lists.old.items ≡ length catalog.now.tables }
    ensures read { OnOk result ((number : ℕ) × (read : AnyRow)
        × IsReadAs form catalog.now.tables clock row.now number read
        × HasMore number read lists.old.items lists.new.items) }
    ensures bad { IfErr result (λ fault. fault ≡ BadStore
        → ¬ IsVersionRow form catalog.now.tables clock row.now) }
    ensures named { IfErr result IsJudgement }
{
    let (number, version) = check_version(alloc, form, catalog, clock, row)?;
    push_row(lists, number, version)?;
    Ok(())
}

/// Judges the rows of bt_meta and bt_table. On `Ok` it has the tables, the form and the clock, a
/// number in the form's unit.
pub(crate) fn check_definitions(
    alloc: Global,
    metas: &[Row],
    tables: &[Row],
) -> Result<(Catalog, Form, i64), OpenFault>
    ensures good { IfOk result
        (λ found. AreDefinitions metas.now tables.now found.0.tables found.1 found.2) }
    ensures bad { IfErr result (λ fault. fault ≡ BadStore
        → (known : List AnyTable) (form : AnyForm) (clock : ℤ)
        → ¬ AreDefinitions metas.now tables.now known form clock) }
    ensures named { IfErr result IsJudgement }
{
    let Some((form, clock)) = clock_of(metas) else {
        return Err(OpenFault::BadStore);
    };
    let catalog = read_tables(alloc, tables)?;
    Ok((catalog, form, clock))
}
