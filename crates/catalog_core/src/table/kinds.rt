//! The kinds of columns and values, by which they are compared.

ghost use Rattle.std.specs.Prelude.{◌≡◌};
ghost use Rattle.catalog_core.specs.table.Kinds.{differ, kind_of_column, kind_of_value};
ghost use Rattle.catalog_core.specs.table.Kinds.{same_kind};
ghost use Rattle.catalog_core.specs.table.TableWords.{def_kind, is_system};

use crate::table::named::find_among;
use crate::table::{ColumnKind, TableDef, ValueKind};
use period_core::Value;
use sql_statements::Name;

/// Whether it is a system column's.
pub fn is_system(kind: ColumnKind) -> bool
    ensures { result ≡ is_system kind }
{
    match kind {
        ColumnKind::Integer => false,
        ColumnKind::Varchar(_) => false,
        ColumnKind::Date => false,
        ColumnKind::RowStart(_) => true,
        ColumnKind::RowEnd(_) => true,
    }
}

/// The kind of what a column holds.
#[tactic(auto, unfolding(crate::specs::table::Kinds::kind_of_column))]
pub fn kind_of_column(kind: ColumnKind) -> ValueKind
    ensures { result ≡ kind_of_column kind }
{
    match kind {
        ColumnKind::Integer => ValueKind::Integer,
        ColumnKind::Varchar(_) => ValueKind::Text,
        ColumnKind::Date => ValueKind::Date,
        ColumnKind::RowStart(_) => ValueKind::Moment,
        ColumnKind::RowEnd(_) => ValueKind::Moment,
    }
}

/// The kind of a value.
#[tactic(auto, unfolding(crate::specs::table::Kinds::kind_of_value))]
pub fn kind_of_value(value: &Value) -> ValueKind
    ensures { result ≡ kind_of_value value.now }
{
    match value {
        Value::Int(_) => ValueKind::Integer,
        Value::Text(_) => ValueKind::Text,
        Value::Date(_) => ValueKind::Date,
    }
}

/// Whether two kinds are the same.
#[tactic(auto, unfolding(crate::specs::table::Kinds::same_kind))]
pub fn same_kind(left: ValueKind, right: ValueKind) -> bool
    ensures { result ≡ same_kind left right }
{
    match (left, right) {
        (ValueKind::Integer, ValueKind::Integer) => true,
        (ValueKind::Text, ValueKind::Text) => true,
        (ValueKind::Date, ValueKind::Date) => true,
        (ValueKind::Moment, ValueKind::Moment) => true,
        _ => false,
    }
}

/// Whether two kinds are both there and differ.
#[tactic(auto, unfolding(crate::specs::table::Kinds::differ))]
pub fn differ(left: Option<ValueKind>, right: Option<ValueKind>) -> bool
    ensures { result ≡ differ left right }
{
    match (left, right) {
        (Some(x), Some(y)) => !same_kind(x, y),
        _ => false,
    }
}

/// The kind of a table's column of this name.
#[tactic(auto, unfolding(crate::specs::table::TableWords::def_kind))]
pub fn def_kind(table: &TableDef, name: &Name) -> Option<ValueKind>
    ensures { result ≡ def_kind table.now name.now }
{
    match find_among(table.columns.as_slice(), name) {
        Some(x) => Some(kind_of_column(x.kind)),
        None => None,
    }
}
