//! The records of a store's clock and of its tables: of each how many versions it has, its columns,
//! its periods, its key and its references.

ghost use Rattle.std.specs.Prelude.{◌≡◌, ◌++◌, ◌-◌, IfOk, None, OnOk, Some, codes, flat_map};
ghost use Rattle.std.specs.Prelude.{◌∷◌, [], false, slice_index, true};
ghost use Rattle.std.specs.Fmt.{decimal};
ghost use Rattle.std.specs.List.{zip};
ghost use Rattle.std.specs.String.{string_bytes};
ghost use Rattle.catalog_core.specs.table.TableWords.{table_of};
ghost use Rattle.bitemporal_file.specs.Listing.{clock_line, column_line, is_row_end};
ghost use Rattle.bitemporal_file.specs.Listing.{is_row_start, key_line, kind_text, name_at};
ghost use Rattle.bitemporal_file.specs.Listing.{name_of_kind, next_field, pair_names, period_line};
ghost use Rattle.bitemporal_file.specs.Listing.{period_lines, reference_line, references_lines};
ghost use Rattle.bitemporal_file.specs.Listing.{record_line, table_lines, tables_lines};

use catalog_core::{Catalog, Column, ColumnKind, Reference, TableDef};
use period_core::Moment;
use sql_statements::Name;
use std::alloc::{AllocError, Global};

// The name of the column at a place; nothing if there is none, as in no definition.
fn column_at(table: &TableDef, place: usize) -> &str
    ensures { result.now ≡ name_at table.now place }
{
    match table.columns.as_slice().get(place) {
        Some(column) => column.name.as_text().as_str(),
        None => "",
    }
}

fn push_kind(text: &mut String, kind: ColumnKind) -> Result<(), AllocError>
    ensures { OnOk result (string_bytes text.new ≡ string_bytes text.old ++ kind_text kind) }
{
    match kind {
        ColumnKind::Integer => text.push_str("INTEGER"),
        ColumnKind::Varchar(most) => write!(text, "VARCHAR({most})"),
        ColumnKind::Date => text.push_str("DATE"),
        ColumnKind::RowStart(_) => text.push_str("ROW START"),
        ColumnKind::RowEnd(_) => text.push_str("ROW END"),
    }
}

fn push_column(text: &mut String, number: u8, column: &Column) -> Result<(), AllocError>
    ensures { OnOk result
        (string_bytes text.new ≡ string_bytes text.old ++ column_line number column.now) }
{
    let name = column.name.as_text().as_str();
    write!(text, "column,{number},{name},")?;
    push_kind(text, column.kind)?;
    text.push_str("\n")
}

fn push_columns(text: &mut String, number: u8, columns: &[Column]) -> Result<(), AllocError>
    ensures { OnOk result (string_bytes text.new
        ≡ string_bytes text.old ++ flat_map (column_line number) columns.now) }
{
    for column in columns {
        push_column(text, number, column)?;
    }
    Ok(())
}

// Whether a column is the one at which the system time begins, or else ends.
fn bounds_system_time(kind: ColumnKind, is_start: bool) -> bool
    ensures start { is_start ≡ true → result ≡ is_row_start kind }
    ensures end { is_start ≡ false → result ≡ is_row_end kind }
{
    match kind {
        ColumnKind::RowStart(_) => is_start,
        ColumnKind::RowEnd(_) => !is_start,
        _ => false,
    }
}

// The name of the column at which the system time begins, or else ends.
fn system_column(columns: &[Column], is_start: bool) -> &str
    ensures start { is_start ≡ true → result.now ≡ name_of_kind is_row_start columns.now }
    ensures end { is_start ≡ false → result.now ≡ name_of_kind is_row_end columns.now }
{
    for column in columns {
        if bounds_system_time(column.kind, is_start) {
            return column.name.as_text().as_str();
        }
    }
    ""
}

fn push_period(
    text: &mut String,
    number: u8,
    name: &str,
    start: &str,
    end: &str,
) -> Result<(), AllocError>
    ensures { OnOk result (string_bytes text.new
        ≡ string_bytes text.old ++ period_line number name.now start.now end.now) }
{
    write!(text, "period,{number},{name},{start},{end}\n")
}

fn push_periods(text: &mut String, number: u8, table: &TableDef) -> Result<(), AllocError>
    ensures { OnOk result
        (string_bytes text.new ≡ string_bytes text.old ++ period_lines number table.now) }
{
    let start = column_at(table, table.period.start);
    let end = column_at(table, table.period.end);
    push_period(
        text,
        number,
        table.period.name.as_text().as_str(),
        start,
        end,
    )?;
    let columns = table.columns.as_slice();
    let from = system_column(columns, true);
    let to = system_column(columns, false);
    push_period(text, number, "SYSTEM_TIME", from, to)
}

// A field after the first.
fn push_field(text: &mut String, field: &str) -> Result<(), AllocError>
    ensures { OnOk result
        (string_bytes text.new ≡ string_bytes text.old ++ next_field field.now) }
{
    write!(text, ",{field}")
}

fn push_names(text: &mut String, table: &TableDef, places: &[usize]) -> Result<(), AllocError>
    ensures { OnOk result (string_bytes text.new ≡ string_bytes text.old
        ++ flat_map (λ place. next_field (name_at table.now place)) places.now) }
{
    for place in places {
        push_field(text, column_at(table, *place))?;
    }
    Ok(())
}

fn push_key(text: &mut String, number: u8, table: &TableDef) -> Result<(), AllocError>
    ensures { OnOk result
        (string_bytes text.new ≡ string_bytes text.old ++ key_line number table.now) }
{
    write!(text, "key,{number}")?;
    push_names(text, table, table.key.as_slice())?;
    text.push_str("\n")
}

fn push_pairs(
    text: &mut String,
    child: &TableDef,
    parent: &TableDef,
    own: &[usize],
    keys: &[usize],
) -> Result<(), AllocError>
    ensures { OnOk result (string_bytes text.new ≡ string_bytes text.old
        ++ flat_map next_field (flat_map (pair_names child.now parent.now)
        (zip own.now keys.now))) }
{
    for (place, key) in own.iter().zip(keys) {
        push_field(text, column_at(child, *place))?;
        push_field(text, column_at(parent, *key))?;
    }
    Ok(())
}

fn push_parent(
    text: &mut String,
    number: u8,
    child: &TableDef,
    reference: &Reference,
    parent: &TableDef,
) -> Result<(), AllocError>
    ensures { OnOk result (string_bytes text.new ≡ string_bytes text.old
        ++ reference_line number child.now reference.now (Some parent.now)) }
{
    let name = parent.name.as_text().as_str();
    write!(text, "reference,{number},{name}")?;
    push_pairs(
        text,
        child,
        parent,
        reference.own.as_slice(),
        reference.keys.as_slice(),
    )?;
    text.push_str("\n")
}

fn push_reference(
    text: &mut String,
    number: u8,
    catalog: &Catalog,
    child: &TableDef,
    reference: &Reference,
) -> Result<(), AllocError>
    ensures { OnOk result (string_bytes text.new ≡ string_bytes text.old
        ++ reference_line number child.now reference.now
        (table_of catalog.now.tables reference.now.parent)) }
{
    match catalog.def(reference.parent) {
        Some(parent) => push_parent(text, number, child, reference, parent),
        None => Ok(()),
    }
}

fn push_references(
    text: &mut String,
    number: u8,
    catalog: &Catalog,
    child: &TableDef,
    references: &[Reference],
) -> Result<(), AllocError>
    ensures { OnOk result (string_bytes text.new ≡ string_bytes text.old
        ++ references_lines catalog.now.tables number child.now references.now) }
{
    for reference in references {
        push_reference(text, number, catalog, child, reference)?;
    }
    Ok(())
}

fn push_head(
    text: &mut String,
    number: u8,
    table: &TableDef,
    versions: usize,
) -> Result<(), AllocError>
    ensures { OnOk result (string_bytes text.new ≡ string_bytes text.old
        ++ record_line (codes "table")
        (decimal number ∷ table.now.name ∷ decimal versions ∷ [])) }
{
    let name = table.name.as_text().as_str();
    write!(text, "table,{number},{name},{versions}\n")
}

fn push_table(
    text: &mut String,
    number: u8,
    catalog: &Catalog,
    table: &TableDef,
    versions: usize,
) -> Result<(), AllocError>
    ensures { OnOk result (string_bytes text.new ≡ string_bytes text.old
        ++ table_lines catalog.now.tables number table.now versions) }
{
    push_head(text, number, table, versions)?;
    push_columns(text, number, table.columns.as_slice())?;
    push_periods(text, number, table)?;
    push_key(text, number, table)?;
    push_references(text, number, catalog, table, table.references.as_slice())
}

/// Adds the records of the tables, of which each has so many versions, in the same order.
pub(crate) fn push_tables(
    text: &mut String,
    catalog: &Catalog,
    counts: &[usize],
) -> Result<(), AllocError>
    ensures { OnOk result (string_bytes text.new ≡ string_bytes text.old
        ++ tables_lines catalog.now.tables (λ number. slice_index counts.now (number - 1)) 1
        catalog.now.tables) }
{
    let tables = catalog.tables.as_slice();
    for i in 0..tables.len() {
        let versions = counts.get(i).copied().unwrap_or(0);
        push_table(text, i as u8 + 1, catalog, &tables[i], versions)?;
    }
    Ok(())
}

/// The record of the clock.
pub(crate) fn clock_text(alloc: Global, clock: Moment) -> Result<Vec<u8>, AllocError>
    ensures { IfOk result (λ text. text.items ≡ clock_line clock) }
{
    let mut moment = [0u8; 26];
    let length = clock.write_text(&mut moment);
    let mut text = Vec::new(alloc);
    text.extend_from_slice(b"clock,")?;
    text.extend_from_slice(&moment[..length])?;
    text.push(b'\n')?;
    Ok(text)
}
