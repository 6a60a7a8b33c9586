//! A table's definition as one list of values.

ghost use Rattle.std.specs.Prelude.{◌≡◌, ◌++◌, ◌∷◌, ◌<◌, ◌&&◌, [], true, length, nat_lt, IfOk};
ghost use Rattle.std.specs.List.{flat_map, list_all};
ghost use Rattle.period_core.specs.declared.value.Value.TheVariants.{Text, Int};
ghost use Rattle.sql_statements.specs.Names.{is_name};
ghost use Rattle.catalog_core.specs.bytes.DefinitionEncoding.{is_writable};
ghost use Rattle.catalog_core.specs.table.IsDefinition.{are_places};
ghost use Rattle.catalog_core.specs.Limits.{number_limit, table_number_limit};
ghost use Rattle.catalog_core.specs.bytes.DefinitionValues.{column_values, counted};
ghost use Rattle.catalog_core.specs.bytes.DefinitionValues.{definition_values};
ghost use Rattle.catalog_core.specs.bytes.DefinitionValues.{kind_values, number, period_values};
ghost use Rattle.catalog_core.specs.bytes.DefinitionValues.{place_values, written_precision};
ghost use Rattle.catalog_core.specs.bytes.DefinitionValues.{reference_values};

use crate::table::{Column, ColumnKind, PeriodColumns, Reference, TableDef};
use period_core::{Memory, Value};
use sql_statements::Name;
use std::alloc::Global;

/// The values of a definition, in the order in which its bytes have them.
pub fn values_of(alloc: Global, definition: &TableDef) -> Result<Vec<Value>, Memory>
    ensures values { IfOk result (λ values. values.items ≡ definition_values definition.now) }
    ensures writable { IfOk result (λ _. is_writable definition.now ≡ true) }
{
    let mut values = Vec::new(alloc);
    push_name(alloc, &mut values, &definition.name)?;
    push_columns(alloc, &mut values, definition.columns.as_slice())?;
    push_period(alloc, &mut values, &definition.period)?;
    push_counted(&mut values, definition.key.as_slice())?;
    push_references(&mut values, definition.references.as_slice())?;
    Ok(values)
}

fn push_name(alloc: Global, values: &mut Vec<Value>, name: &Name) -> Result<(), Memory>
    ensures pushed { IfOk result
        (λ _. values.new.items ≡ values.old.items ++ Text name.now ∷ []) }
    ensures named { IfOk result (λ _. is_name name.now ≡ true) }
{
    values.push(Value::Text(name.as_text().copy(alloc)?))?;
    Ok(())
}

fn push_number(values: &mut Vec<Value>, n: usize) -> Result<(), Memory>
    requires { n < number_limit }
    ensures { IfOk result (λ _. values.new.items ≡ values.old.items ++ number n ∷ []) }
{
    values.push(Value::Int(n as i64))?;
    Ok(())
}

fn push_places(values: &mut Vec<Value>, places: &[usize]) -> Result<(), Memory>
    requires { are_places number_limit places.now ≡ true }
    ensures { IfOk result
        (λ _. values.new.items ≡ values.old.items ++ flat_map place_values places.now) }
{
    for place in places {
        push_number(values, *place)?;
    }
    Ok(())
}

fn push_counted(values: &mut Vec<Value>, places: &[usize]) -> Result<(), Memory>
    requires { are_places number_limit places.now ≡ true }
    ensures { IfOk result
        (λ _. values.new.items ≡ values.old.items ++ counted place_values places.now) }
{
    push_number(values, places.len())?;
    push_places(values, places)
}

fn precision_number(precision: Option<u8>) -> i64
    ensures { result ≡ written_precision precision }
{
    match precision {
        None => -1,
        Some(p) => i64::from(p),
    }
}

fn kind_numbers(kind: ColumnKind) -> (i64, i64)
    ensures { kind_values kind ≡ Int result.0 ∷ Int result.1 ∷ [] }
{
    match kind {
        ColumnKind::Integer => (1, 0),
        ColumnKind::Varchar(n) => (2, i64::from(n)),
        ColumnKind::Date => (3, 0),
        ColumnKind::RowStart(p) => (4, precision_number(p)),
        ColumnKind::RowEnd(p) => (5, precision_number(p)),
    }
}

fn push_column(alloc: Global, values: &mut Vec<Value>, column: &Column) -> Result<(), Memory>
    ensures pushed { IfOk result
        (λ _. values.new.items ≡ values.old.items ++ column_values column.now) }
    ensures named { IfOk result (λ _. is_name column.now.name ≡ true) }
{
    let (kind, n) = kind_numbers(column.kind);
    push_name(alloc, values, &column.name)?;
    values.push(Value::Int(kind))?;
    values.push(Value::Int(n))?;
    Ok(())
}

#[tactic(auto, using(std::proofs::Common::append_assoc))]
fn push_columns(alloc: Global, values: &mut Vec<Value>, columns: &[Column]) -> Result<(), Memory>
    ensures few { length columns.now < number_limit }
    ensures pushed { IfOk result
        (λ _. values.new.items ≡ values.old.items ++ counted column_values columns.now) }
    ensures named { IfOk result (λ _. list_all (λ c. is_name c.name) columns.now ≡ true) }
{
    push_number(values, columns.len())?;
    for column in columns {
        push_column(alloc, values, column)?;
    }
    Ok(())
}

fn push_period(alloc: Global, values: &mut Vec<Value>, period: &PeriodColumns) -> Result<(), Memory>
    requires start { period.now.start < number_limit }
    requires end { period.now.end < number_limit }
    ensures pushed { IfOk result
        (λ _. values.new.items ≡ values.old.items ++ period_values period.now) }
    ensures named { IfOk result (λ _. is_name period.now.name ≡ true) }
{
    push_name(alloc, values, &period.name)?;
    push_number(values, period.start)?;
    push_number(values, period.end)?;
    Ok(())
}

#[tactic(auto, using(std::proofs::Common::append_assoc))]
fn push_reference(values: &mut Vec<Value>, reference: &Reference) -> Result<(), Memory>
    requires own { are_places number_limit reference.now.own ≡ true }
    requires keys { are_places number_limit reference.now.keys ≡ true }
    ensures pushed { IfOk result
        (λ _. values.new.items ≡ values.old.items ++ reference_values reference.now) }
    ensures small { IfOk result (λ _. nat_lt reference.now.parent table_number_limit ≡ true) }
{
    push_number(values, usize::from(reference.parent))?;
    push_counted(values, reference.own.as_slice())?;
    push_places(values, reference.keys.as_slice())?;
    Ok(())
}

#[tactic(auto, using(std::proofs::Common::append_assoc))]
fn push_references(values: &mut Vec<Value>, references: &[Reference]) -> Result<(), Memory>
    requires { list_all (λ r. are_places number_limit r.own && are_places number_limit r.keys)
        references.now ≡ true }
    ensures pushed { IfOk result
        (λ _. values.new.items ≡ values.old.items ++ counted reference_values references.now) }
    ensures small { IfOk result
        (λ _. list_all (λ r. nat_lt r.parent table_number_limit) references.now ≡ true) }
{
    push_number(values, references.len())?;
    for reference in references {
        push_reference(values, reference)?;
    }
    Ok(())
}
