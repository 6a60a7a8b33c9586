//! INSERT: its refusal by the statement and its table.

ghost use Rattle.std.specs.Prelude.{◌≡◌, true};
ghost use Rattle.statement_resolution.specs.change.Insertion.{shape_conditions, value_conditions};
ghost use Rattle.statement_resolution.specs.change.InsertPlaces.{ArePlaces};
ghost use Rattle.catalog_core.specs.RefusalConditions.{first_holding};
ghost use Rattle.catalog_core.specs.table.TableWords.{has_distinct_names};

use crate::change::insert_names::{
    has_other_count, lists_ambiguous, lists_system, lists_unknown, repeats_column,
};
use crate::change::insert_values::{ValueFault, has_faulty_value, has_long_text};
use catalog_core::TableDef;
use period_core::Refusal;
use sql_statements::InsertRows;

/// The first of the refusals 24 to 29 whose condition holds: by the list of columns and the lengths
/// of the rows.
pub fn shape_fault(table: &TableDef, insert: &InsertRows) -> Option<Refusal>
    ensures { result ≡ first_holding (shape_conditions table.now insert.now) }
{
    if lists_unknown(table, insert) {
        return Some(Refusal::UnknownColumn);
    }
    if lists_ambiguous(table, insert) {
        return Some(Refusal::AmbiguousColumn);
    }
    if repeats_column(insert) {
        return Some(Refusal::DuplicateName);
    }
    if lists_system(table, insert) {
        return Some(Refusal::PeriodColumn);
    }
    if has_other_count(table, insert) {
        return Some(Refusal::ColumnCount);
    }
    None
}

/// The first of the refusals 30 and 31 whose condition holds: by the values, which are given for
/// the columns at these places.
pub fn value_fault(table: &TableDef, insert: &InsertRows, places: &[usize]) -> Option<Refusal>
    requires placed { ArePlaces table.now insert.now.columns places.now }
    requires distinct { has_distinct_names table.now ≡ true }
    ensures { result ≡ first_holding (value_conditions table.now insert.now) }
{
    if has_faulty_value(ValueFault::Kind, table, insert, places) {
        return Some(Refusal::TypeMismatch);
    }
    if has_long_text(table, insert, places) {
        return Some(Refusal::TextTooLong);
    }
    None
}
