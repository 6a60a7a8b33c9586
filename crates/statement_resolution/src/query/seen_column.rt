//! The columns that are seen at a place of a select, and what a name matches among them.

ghost use Rattle.std.specs.Prelude.{◌≡◌, ◌++◌, [], IfOk, Some};
ghost use Rattle.statement_resolution.specs.query.Faults.{matches_among};
ghost use Rattle.statement_resolution.specs.query.Matched.{found_faults, matched, matched_more};
ghost use Rattle.statement_resolution.specs.query.Scopes as scope;
ghost use Rattle.statement_resolution.specs.query.Scopes.{declared_columns, names_column};
ghost use Rattle.statement_resolution.specs.query.Scopes.{own_columns};
ghost use Rattle.catalog_core.specs.table.Kinds as kinds;
ghost use Rattle.catalog_core.specs.table.Naming as naming;
ghost use Rattle.catalog_core.specs.table.TableWords.{table_of_name};

use crate::faults::Faults;
use crate::query::seen::is_qualified;
use catalog_core::{
    Catalog, Column, TableDef, ValueKind, is_value_column, kind_of_column, known_name,
};
use period_core::Memory;
use sql_statements::{ColumnReference, Name, TableReference};
use std::alloc::Global;
use std::marker::Model;

/// A declared column of a table that is seen, with the name by which the table is known and the
/// column's place in it.
#[derive(Drop)]
pub struct SeenColumn<'a> {
    known_as: &'a Name,
    table: &'a TableDef,
    place: usize,
    column: &'a Column,
}

impl<'a> Model for SeenColumn<'a> {
    ghost use Rattle.statement_resolution.specs.query.Scopes.{SeenColumn as Seen};

    ghost Value = { Seen };

    ghost view = { λ s. record {
      known_as = s.known_as.now;
      table = s.table.now;
      place = s.place;
      column = s.column.now;
    } };
}

impl<'a> SeenColumn<'a> {
    /// Whether a reference names it.
    pub fn is_named(&self, reference: &ColumnReference) -> bool
        ensures { result ≡ names_column reference.now self.now }
    {
        is_qualified(&reference.qualifier, self.known_as) && reference.name.is(&self.column.name)
    }

    /// Whether rows have a value for it.
    pub fn has_value(&self) -> bool
        ensures { result ≡ scope.has_value self.now }
    {
        is_value_column(self.table, self.place, self.column)
    }

    /// The kind of its values.
    pub fn kind(&self) -> ValueKind
        ensures { result ≡ kinds.kind_of_column self.now.column.kind }
    {
        kind_of_column(self.column.kind)
    }
}

/// The matches of a name: the kind of the first column, whether there are several, and whether one
/// is a period or system column.
#[derive(Clone, Copy)]
pub struct Matched {
    pub kind: Option<ValueKind>,
    pub several: bool,
    pub period: bool,
}

impl Matched {
    /// The matches of a name that matches nothing.
    pub fn none() -> Matched
        ensures { result ≡ matched [] }
    {
        Matched {
            kind: None,
            several: false,
            period: false,
        }
    }

    /// The matches with one more column.
    fn with(self, seen: &SeenColumn<'_>) -> Matched
        ensures { result ≡ matched_more self seen.now }
    {
        let kind = match self.kind {
            Some(kind) => kind,
            None => seen.kind(),
        };
        Matched {
            kind: Some(kind),
            several: self.kind.is_some(),
            period: self.period || !seen.has_value(),
        }
    }

    /// The faults of the name.
    pub fn faults(self) -> Faults
        ensures { result ≡ found_faults self }
    {
        Faults {
            unknown: self.kind.is_none(),
            ambiguous: self.several,
            period: self.period,
            ..Faults::none()
        }
    }
}

/// The columns that a reference names.
pub fn look_up(columns: &[SeenColumn<'_>], reference: &ColumnReference) -> Matched
    ensures { result ≡ matched (matches_among columns.now reference.now) }
{
    let mut found = Matched::none();
    for seen in columns {
        if seen.is_named(reference) {
            found = found.with(seen);
        }
    }
    found
}

/// Adds the declared columns of a table that is known by a name.
fn push_declared<'a>(
    columns: &mut Vec<SeenColumn<'a>>,
    known_as: &'a Name,
    table: &'a TableDef,
) -> Result<(), Memory>
    ensures { IfOk result (λ _. columns.new.items
        ≡ columns.old.items ++ declared_columns known_as.now (Some table.now)) }
{
    let declared = table.columns.as_slice();
    for place in 0..declared.len() {
        columns.push(SeenColumn {
            known_as,
            table,
            place,
            column: &declared[place],
        })?;
    }
    Ok(())
}

/// Adds the columns of the table that a reference names: none, if it is missing.
pub fn push_columns<'a>(
    columns: &mut Vec<SeenColumn<'a>>,
    catalog: &'a Catalog,
    reference: &'a TableReference,
) -> Result<(), Memory>
    ensures { IfOk result (λ _. columns.new.items ≡ columns.old.items
        ++ declared_columns (naming.known_name reference.now)
        (table_of_name catalog.now.tables reference.now.table)) }
{
    let Some((_, table)) = catalog.table_named(&reference.table) else {
        return Ok(());
    };
    push_declared(columns, known_name(reference), table)
}

/// The columns of a table that is known by its own name.
pub fn own_columns(alloc: Global, table: &TableDef) -> Result<Vec<SeenColumn<'_>>, Memory>
    ensures { IfOk result (λ columns. columns.items ≡ own_columns table.now) }
{
    let mut columns = Vec::new(alloc);
    push_declared(&mut columns, &table.name, table)?;
    Ok(columns)
}
