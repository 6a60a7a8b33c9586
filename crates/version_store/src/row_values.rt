//! Whether values fit a row of a table.

ghost use Rattle.std.specs.Prelude.{◌≡◌};
ghost use Rattle.version_store.specs.RowValues.{are_row_values, is_of_column};

use catalog_core::{ColumnKind, TableDef, is_value_column};
use period_core::Value;

/// Whether a value is of a column's kind, and no longer than the column takes.
fn is_of_column(kind: ColumnKind, value: &Value) -> bool
    ensures { result ≡ is_of_column kind value.now }
{
    match (kind, value) {
        (ColumnKind::Integer, Value::Int(_)) => true,
        (ColumnKind::Varchar(n), Value::Text(text)) => text.char_count() <= usize::from(n),
        (ColumnKind::Date, Value::Date(_)) => true,
        _ => false,
    }
}

/// Whether there is a value for each of the table's value columns, in declared order.
pub(crate) fn are_row_values(table: &TableDef, values: &[Value]) -> bool
    ensures { result ≡ are_row_values table.now values.now }
{
    let columns = table.columns.as_slice();
    let mut rest = values;
    for place in 0..columns.len() {
        let column = &columns[place];
        if is_value_column(table, place, column) {
            match rest {
                [] => return false,
                [value, more @ ..] => {
                    if !is_of_column(column.kind, value) {
                        return false;
                    }
                    rest = more;
                }
            }
        }
    }
    rest.is_empty()
}
