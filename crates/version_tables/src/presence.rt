//! The three tables that a database has, and whether they have their columns. Other tables
//! don't matter.

ghost use Rattle.std.specs.Prelude.{◌≡◌, ◌↔◌, ◌&&◌, IsTrue, codes, is_some};
ghost use Rattle.sqlite.specs.Held.{state};
ghost use Rattle.sqlite_schema.specs.Names.{column_named, same_name};
ghost use Rattle.version_tables.specs.Presence.{HasEachStoreTable, HasNoStoreTable};
ghost use Rattle.version_tables.specs.Presence.{HasVersionKey, IsKeyed};
ghost use Rattle.version_tables.specs.Presence.{definition_columns, has_column, has_columns};
ghost use Rattle.version_tables.specs.Presence.{have_columns, meta_columns, version_columns};

use sqlite::{Alter, Connection};
use sqlite_schema::schema::{Schema, Table};

/// The tables that exist, of the three.
#[derive(Clone, Copy, Debug, PartialEq, Eq)]
pub enum Presence {
    /// None of them.
    Missing,
    /// One or two of them.
    Partial,
    /// All three.
    Whole,
}

/// The tables that the database has, of the three, by their names. A table that `sqlite` can't use
/// counts as not there.
pub fn tables_there<S: Alter>(connection: &Connection<S>) -> Presence
    ensures missing { result ≡ Presence.Missing
        ↔ HasNoStoreTable (state S.Store connection.now).now.schema }
    ensures whole { result ≡ Presence.Whole
        ↔ HasEachStoreTable (state S.Store connection.now).now.schema }
{
    let schema = connection.schema();
    let meta = schema.table_named(b"bt_meta").is_some();
    let table = schema.table_named(b"bt_table").is_some();
    let version = schema.table_named(b"bt_version").is_some();
    match (meta, table, version) {
        (false, false, false) => Presence::Missing,
        (true, true, true) => Presence::Whole,
        _ => Presence::Partial,
    }
}

/// Whether a table has this name and a column of that name.
fn is_with_column(table: &Table, name: &[u8], column: &[u8]) -> bool
    ensures { result ≡ (same_name table.now.name name.now
        && is_some (column_named table.now column.now)) }
{
    table.is_named(name) && table.column_named(column).is_some()
}

/// Whether the table of this name has a column of that name.
fn has_column(schema: &Schema, name: &[u8], column: &[u8]) -> bool
    ensures { result ≡ has_column schema.now name.now column.now }
{
    schema
        .tables
        .as_slice()
        .iter()
        .any(|table| is_with_column(table, name, column))
}

fn has_meta_columns(schema: &Schema) -> bool
    ensures { result ≡ has_columns schema.now (codes "bt_meta") meta_columns }
{
    has_column(schema, b"bt_meta", b"id")
        && has_column(schema, b"bt_meta", b"form")
        && has_column(schema, b"bt_meta", b"clock")
}

fn has_definition_columns(schema: &Schema) -> bool
    ensures { result ≡ has_columns schema.now (codes "bt_table") definition_columns }
{
    has_column(schema, b"bt_table", b"id") && has_column(schema, b"bt_table", b"def")
}

fn has_version_columns(schema: &Schema) -> bool
    ensures { result ≡ has_columns schema.now (codes "bt_version") version_columns }
{
    has_column(schema, b"bt_version", b"tab")
        && has_column(schema, b"bt_version", b"vals")
        && has_column(schema, b"bt_version", b"s")
        && has_column(schema, b"bt_version", b"e")
        && has_column(schema, b"bt_version", b"ss")
        && has_column(schema, b"bt_version", b"se")
}

/// Whether each of the three tables exists with all its columns, by their names. A column may be
/// of any kind, and there may be more columns.
pub fn columns_there<S: Alter>(connection: &Connection<S>) -> bool
    ensures { result ≡ have_columns (state S.Store connection.now).now.schema }
{
    let schema = connection.schema();
    has_meta_columns(schema) && has_definition_columns(schema) && has_version_columns(schema)
}

/// Whether the table is named bt_version and has the key of it, in columns where `create` has them.
fn is_keyed(table: &Table) -> bool
    ensures { IsTrue result ↔ IsKeyed table.now }
{
    table.is_named(b"bt_version")
        && matches!(table.primary.as_slice(), [1, 2, 3, 5])
        && table.column_named(b"tab") == Some(0)
        && table.column_named(b"vals") == Some(1)
        && table.column_named(b"s") == Some(2)
        && table.column_named(b"ss") == Some(4)
}

/// Whether bt_version exists with the key that `create` gives it. An open connection then has no
/// two rows of one key.
pub(crate) fn key_there<S: Alter>(connection: &Connection<S>) -> bool
    ensures { IsTrue result ↔ HasVersionKey (state S.Store connection.now).now.schema }
{
    let schema = connection.schema();
    schema.tables.as_slice().iter().any(is_keyed)
}
