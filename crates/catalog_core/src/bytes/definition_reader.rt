//! A table's definition, read from the list of its values.

ghost use Rattle.std.specs.Prelude.{◌≡◌, ◌∷◌, [], ℕ, Option, true, IfErr, IfOk, MatchOption};
ghost use Rattle.std.specs.List.{flat_map, list_all};
ghost use Rattle.period_core.specs.declared.decoding.DecodeFault.TheVariants.{Malformed};
ghost use Rattle.period_core.specs.declared.value.Value.TheVariants.{Int};
ghost use Rattle.catalog_core.specs.bytes.DefinitionEncoding.{is_writable};
ghost use Rattle.catalog_core.specs.bytes.DefinitionReading.{HasNoFront, IsFront, are_so_many};
ghost use Rattle.catalog_core.specs.bytes.DefinitionReading.{is_column};
ghost use Rattle.catalog_core.specs.bytes.DefinitionReading.{is_named_period, is_small_reference};
ghost use Rattle.catalog_core.specs.bytes.DefinitionValues.{column_values, counted};
ghost use Rattle.catalog_core.specs.bytes.DefinitionValues.{definition_values};
ghost use Rattle.catalog_core.specs.bytes.DefinitionValues.{kind_values, period_values};
ghost use Rattle.catalog_core.specs.bytes.DefinitionValues.{place_values};
ghost use Rattle.catalog_core.specs.bytes.DefinitionValues.{reference_values, written_precision};
ghost use Rattle.catalog_core.specs.table.IsDefinition.{is_key, is_kind, is_precision};
ghost use Rattle.catalog_core.specs.declared.table.ColumnKind.{ColumnKind as AnyKind};
ghost use Rattle.catalog_core.specs.declared.table.TableDef.{TableDef as AnyTable};

use crate::bytes::value_reader::{read_name, read_number, read_place, read_places};
use crate::limits::{GREATEST_PRECISION, MOST_CODE_POINTS, NUMBER_LIMIT, TABLE_NUMBER_LIMIT};
use crate::table::{Column, ColumnKind, PeriodColumns, Reference, TableDef};
use period_core::{DecodeFault, Items, Value};
use std::alloc::Global;

/// The precision for a number.
fn precision_of(number: i64) -> Option<Option<u8>>
    ensures { MatchOption result
        ((p : Option ℕ) → is_precision p ≡ true → written_precision p ≡ number → ⊥)
        (λ p. (is_precision p ≡ true) × (written_precision p ≡ number)) }
{
    match number {
        -1 => Some(None),
        _ if number >= 0 && number <= i64::from(GREATEST_PRECISION) => Some(Some(number as u8)),
        _ => None,
    }
}

/// The kind of a column, by the number of the kind and the number after it.
fn kind_of(kind: i64, number: i64) -> Option<ColumnKind>
    ensures { MatchOption result
        ((k : AnyKind) → is_kind k ≡ true → kind_values k ≡ Int kind ∷ Int number ∷ [] → ⊥)
        (λ k. (is_kind k ≡ true) × (kind_values k ≡ Int kind ∷ Int number ∷ [])) }
{
    match kind {
        1 if number == 0 => Some(ColumnKind::Integer),
        2 if number >= 1 && number <= i64::from(MOST_CODE_POINTS) => {
            Some(ColumnKind::Varchar(number as u16))
        }
        3 if number == 0 => Some(ColumnKind::Date),
        4 => Some(ColumnKind::RowStart(precision_of(number)?)),
        5 => Some(ColumnKind::RowEnd(precision_of(number)?)),
        _ => None,
    }
}

/// The kind of a column, and the remaining values.
fn read_kind(values: &[Value]) -> Result<(ColumnKind, &[Value]), DecodeFault>
    ensures found { IfOk result (λ x. IsFront is_kind kind_values values.now x.0 x.1.now) }
    ensures malformed { IfErr result
        (λ fault. fault ≡ Malformed → HasNoFront is_kind kind_values values.now) }
{
    let [Value::Int(kind), Value::Int(number), rest @ ..] = values else {
        return Err(DecodeFault::Malformed);
    };
    match kind_of(*kind, *number) {
        Some(kind) => Ok((kind, rest)),
        None => Err(DecodeFault::Malformed),
    }
}

fn read_column<'a>(alloc: Global, values: &'a [Value]) -> Result<(Column, &'a [Value]), DecodeFault>
    ensures found { IfOk result (λ x. IsFront is_column column_values values.now x.0 x.1.now) }
    ensures malformed { IfErr result
        (λ fault. fault ≡ Malformed → HasNoFront is_column column_values values.now) }
{
    let (name, behind) = read_name(alloc, values)?;
    let (kind, rest) = read_kind(behind)?;
    Ok((Column { name, kind }, rest))
}

/// `count` columns, and the remaining values.
fn read_each_column<'a>(
    alloc: Global,
    values: &'a [Value],
    count: usize,
) -> Result<(Vec<Column>, &'a [Value]), DecodeFault>
    ensures found { IfOk result (λ x.
        IsFront (are_so_many count is_column) (flat_map column_values)
        values.now x.0.items x.1.now) }
    ensures malformed { IfErr result (λ fault. fault ≡ Malformed →
        HasNoFront (are_so_many count is_column) (flat_map column_values) values.now) }
{
    let mut columns = Vec::new(alloc);
    let mut rest = values;
    'columns: for _turn in 0..count {
        let (column, behind) = read_column(alloc, rest)?;
        columns.push(column)?;
        rest = behind;
    }
    Ok((columns, rest))
}

/// The number of columns, the columns, and the remaining values.
fn read_columns<'a>(
    alloc: Global,
    values: &'a [Value],
) -> Result<(Vec<Column>, &'a [Value]), DecodeFault>
    ensures found { IfOk result (λ x.
        IsFront (list_all is_column) (counted column_values) values.now x.0.items x.1.now) }
    ensures malformed { IfErr result (λ fault.
        fault ≡ Malformed → HasNoFront (list_all is_column) (counted column_values) values.now) }
{
    let (count, behind) = read_number(values)?;
    read_each_column(alloc, behind, count)
}

/// The application period of a table with `count` columns, and the remaining values.
fn read_period<'a>(
    alloc: Global,
    values: &'a [Value],
    count: usize,
) -> Result<(PeriodColumns, &'a [Value]), DecodeFault>
    ensures found { IfOk result
        (λ x. IsFront (is_named_period count) period_values values.now x.0 x.1.now) }
    ensures malformed { IfErr result
        (λ fault. fault ≡ Malformed → HasNoFront (is_named_period count) period_values values.now) }
{
    let (name, after_name) = read_name(alloc, values)?;
    let (start, after_start) = read_place(after_name, count)?;
    let (end, rest) = read_place(after_start, count)?;
    Ok((PeriodColumns { name, start, end }, rest))
}

/// The number of a key's columns, their places among `count` columns, and the remaining values.
fn read_key(
    alloc: Global,
    values: &[Value],
    count: usize,
) -> Result<(Vec<usize>, &[Value]), DecodeFault>
    ensures found { IfOk result
        (λ x. IsFront (is_key count) (counted place_values) values.now x.0.items x.1.now) }
    ensures malformed { IfErr result
        (λ fault. fault ≡ Malformed → HasNoFront (is_key count) (counted place_values) values.now) }
{
    let (length, behind) = read_number(values)?;
    if length == 0 {
        return Err(DecodeFault::Malformed);
    }
    read_places(alloc, behind, length, count)
}

/// A reference of a table with `count` columns, and the remaining values.
fn read_reference(
    alloc: Global,
    values: &[Value],
    count: usize,
) -> Result<(Reference, &[Value]), DecodeFault>
    ensures found { IfOk result
        (λ x. IsFront (is_small_reference count) reference_values values.now x.0 x.1.now) }
    ensures malformed { IfErr result (λ fault.
        fault ≡ Malformed → HasNoFront (is_small_reference count) reference_values values.now) }
{
    let (parent, after_parent) = read_place(values, TABLE_NUMBER_LIMIT)?;
    if parent == 0 {
        return Err(DecodeFault::Malformed);
    }
    let (own, after_own) = read_key(alloc, after_parent, count)?;
    let (keys, rest) = read_places(alloc, after_own, own.len(), NUMBER_LIMIT)?;
    let reference = Reference {
        parent: parent as u8,
        own: Items::from_vec(own),
        keys: Items::from_vec(keys),
    };
    Ok((reference, rest))
}

/// `length` references of a table with `count` columns, and the remaining values.
fn read_each_reference(
    alloc: Global,
    values: &[Value],
    length: usize,
    count: usize,
) -> Result<(Vec<Reference>, &[Value]), DecodeFault>
    ensures found { IfOk result (λ x. IsFront (are_so_many length (is_small_reference count))
        (flat_map reference_values) values.now x.0.items x.1.now) }
    ensures malformed { IfErr result (λ fault. fault ≡ Malformed →
        HasNoFront (are_so_many length (is_small_reference count)) (flat_map reference_values)
        values.now) }
{
    let mut references = Vec::new(alloc);
    let mut rest = values;
    'references: for _turn in 0..length {
        let (reference, behind) = read_reference(alloc, rest, count)?;
        references.push(reference)?;
        rest = behind;
    }
    Ok((references, rest))
}

/// The number of references, the references, and the remaining values.
fn read_references(
    alloc: Global,
    values: &[Value],
    count: usize,
) -> Result<(Vec<Reference>, &[Value]), DecodeFault>
    ensures found { IfOk result (λ x. IsFront (list_all (is_small_reference count))
        (counted reference_values) values.now x.0.items x.1.now) }
    ensures malformed { IfErr result (λ fault. fault ≡ Malformed →
        HasNoFront (list_all (is_small_reference count)) (counted reference_values) values.now) }
{
    let (length, behind) = read_number(values)?;
    read_each_reference(alloc, behind, length, count)
}

/// The definition whose values these are.
pub fn read_definition(alloc: Global, values: &[Value]) -> Result<TableDef, DecodeFault>
    ensures found { IfOk result
        (λ d. (is_writable d ≡ true) × (definition_values d ≡ values.now)) }
    ensures malformed { IfErr result (λ fault. fault ≡ Malformed → (d : AnyTable)
        → is_writable d ≡ true → definition_values d ≡ values.now → ⊥) }
{
    let (name, after_name) = read_name(alloc, values)?;
    let (columns, after_columns) = read_columns(alloc, after_name)?;
    let count = columns.len();
    let (period, after_period) = read_period(alloc, after_columns, count)?;
    let (key, after_key) = read_key(alloc, after_period, count)?;
    let (references, rest) = read_references(alloc, after_key, count)?;
    if !rest.is_empty() {
        return Err(DecodeFault::Malformed);
    }
    Ok(TableDef {
        name,
        columns: Items::from_vec(columns),
        period,
        key: Items::from_vec(key),
        references: Items::from_vec(references),
    })
}
