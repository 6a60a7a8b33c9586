//! INSERT: what its values decide, by the places of the columns that they are given for. No test
//! takes memory.

ghost use Rattle.std.specs.Prelude.{◌≡◌, true};
ghost use Rattle.statement_resolution.specs.change.Insertion.{has_faulty_value, is_longer};
ghost use Rattle.statement_resolution.specs.change.InsertPlaces.{ArePlaces, gives_faulty_value_at};
ghost use Rattle.statement_resolution.specs.change.InsertPlaces.{gives_text, takes_text};
ghost use Rattle.statement_resolution.specs.change.InsertPlaces.{has_faulty_value_at};
ghost use Rattle.statement_resolution.specs.change.InsertPlaces.{is_faulty_at, is_faulty_for};
ghost use Rattle.catalog_core.specs.table.TableWords.{has_distinct_names};
ghost use Rattle.statement_resolution.specs.declared.change.insert_values.ValueFault.TheVariants as fault;

use catalog_core::{
    Column, ColumnKind, TableDef, ValueKind, kind_of_column, kind_of_value, same_kind,
};
use period_core::Value;
use sql_statements::{InsertRows, NonEmpty};

/// The faults of a value.
#[derive(Clone, Copy)]
pub enum ValueFault {
    Kind,
    Length,
}

impl ValueFault {
    /// Whether a value is wrong in this way for a column of the kind.
    #[tactic(auto, unfolding(crate::specs::change::InsertPlaces::is_faulty_for))]
    fn is_for(self, kind: ColumnKind, value: &Value) -> bool
        ensures { result ≡ is_faulty_for self kind value.now }
    {
        match self {
            ValueFault::Kind => !same_kind(kind_of_column(kind), kind_of_value(value)),
            ValueFault::Length => is_longer(kind, value),
        }
    }

    /// Whether a value is wrong in this way for the column at a place.
    #[tactic(auto, unfolding(crate::specs::change::InsertPlaces::is_faulty_at))]
    fn is_at(self, columns: &[Column], place: usize, value: &Value) -> bool
        ensures { result ≡ is_faulty_at self columns.now (place, value.now) }
    {
        match columns.get(place) {
            Some(column) => self.is_for(column.kind, value),
            None => false,
        }
    }
}

/// Whether a value is a text that its column does not take.
#[tactic(auto, unfolding(crate::specs::change::Insertion::is_longer))]
pub fn is_longer(kind: ColumnKind, value: &Value) -> bool
    ensures { result ≡ is_longer kind value.now }
{
    match (kind, value) {
        (ColumnKind::Varchar(n), Value::Text(text)) => text.char_count() > usize::from(n),
        _ => false,
    }
}

/// Whether a row gives a value that is wrong in this way.
fn gives_faulty_value_at(
    fault: ValueFault,
    columns: &[Column],
    places: &[usize],
    row: &[Value],
) -> bool
    ensures { result ≡ gives_faulty_value_at fault columns.now places.now row.now }
{
    for i in 0..places.len().min(row.len()) {
        let place = places[i];
        let value = &row[i];
        if fault.is_at(columns, place, value) {
            return true;
        }
    }
    false
}

/// Whether one of the rows does.
#[tactic(auto, unfolding(crate::specs::change::InsertPlaces::has_faulty_value_at))]
fn has_faulty_value_at(
    fault: ValueFault,
    columns: &[Column],
    places: &[usize],
    rows: &[NonEmpty<Value>],
) -> bool
    ensures { result ≡ has_faulty_value_at fault columns.now places.now rows.now }
{
    rows.iter().any(|x| gives_faulty_value_at(fault, columns, places, x.as_slice()))
}

/// Whether a row of INSERT gives a value that is wrong in this way for its column.
pub fn has_faulty_value(
    fault: ValueFault,
    table: &TableDef,
    insert: &InsertRows,
    places: &[usize],
) -> bool
    requires placed { ArePlaces table.now insert.now.columns places.now }
    requires distinct { has_distinct_names table.now ≡ true }
    ensures { result ≡ has_faulty_value fault table.now insert.now }
{
    has_faulty_value_at(
        fault,
        table.columns.as_slice(),
        places,
        insert.rows.as_slice(),
    )
}

/// Whether the column at a place takes texts.
#[tactic(auto, unfolding(crate::specs::change::InsertPlaces::takes_text))]
fn takes_text(columns: &[Column], place: usize) -> bool
    ensures { result ≡ takes_text columns.now place }
{
    match columns.get(place) {
        Some(column) => same_kind(kind_of_column(column.kind), ValueKind::Text),
        None => false,
    }
}

/// Whether values are given for a column that takes texts.
#[tactic(auto, unfolding(crate::specs::change::InsertPlaces::gives_text))]
fn gives_text(columns: &[Column], places: &[usize]) -> bool
    ensures { result ≡ gives_text columns.now places.now }
{
    places.iter().any(|place| takes_text(columns, *place))
}

/// Whether a row of INSERT gives a text that is too long for its column. The rows are read only if
/// they give values for columns that take texts.
pub fn has_long_text(table: &TableDef, insert: &InsertRows, places: &[usize]) -> bool
    requires placed { ArePlaces table.now insert.now.columns places.now }
    requires distinct { has_distinct_names table.now ≡ true }
    ensures { result ≡ has_faulty_value fault.Length table.now insert.now }
{
    gives_text(table.columns.as_slice(), places)
        && has_faulty_value(ValueFault::Length, table, insert, places)
}
