//! UPDATE and DELETE: the faults of their parts, judged against their table. No test takes memory.

ghost use Rattle.std.specs.Prelude.{◌≡◌};
ghost use Rattle.statement_resolution.specs.change.Insertion as insertion;
ghost use Rattle.statement_resolution.specs.TableFaults.{is_set_again, portion_faults, set_faults};
ghost use Rattle.statement_resolution.specs.TableFaults.{sets_twice, twice_fault};

use crate::change::insert_values::is_longer;
use crate::faults::Faults;
use catalog_core::{
    MatchCount, TableDef, def_kind, def_matches, differ, kind_of_value, names_non_value_column,
};
use period_core::Value;
use sql_statements::{Assignment, Name, Portion};

/// Whether a value is of another kind than the column of this name.
#[tactic(auto, unfolding(crate::specs::change::Insertion::is_of_other_kind))]
fn is_of_other_kind(table: &TableDef, name: &Name, value: &Value) -> bool
    ensures { result ≡ insertion.is_of_other_kind table.now (name.now, value.now) }
{
    differ(def_kind(table, name), Some(kind_of_value(value)))
}

/// Whether a value is a text that the column of this name does not take.
#[tactic(auto, unfolding(crate::specs::change::Insertion::is_too_long))]
fn is_too_long(table: &TableDef, name: &Name, value: &Value) -> bool
    ensures { result ≡ insertion.is_too_long table.now (name.now, value.now) }
{
    let columns = table.columns.as_slice();
    columns
        .iter()
        .any(|x| name.is(&x.name) && is_longer(x.kind, value))
}

/// The faults of an assignment.
#[tactic(auto, unfolding(crate::specs::TableFaults::set_faults, catalog_core::specs::table::Matches::is_matching))]
pub fn set_faults(table: &TableDef, set: &Assignment) -> Faults
    ensures { result ≡ set_faults table.now set.now }
{
    let matches = def_matches(table, &set.column);
    Faults {
        unknown: MatchCount::Zero.is(matches),
        ambiguous: MatchCount::Many.is(matches),
        period: names_non_value_column(table, &set.column),
        kinds: is_of_other_kind(table, &set.column, &set.value),
        long: is_too_long(table, &set.column, &set.value),
        ..Faults::none()
    }
}

/// The faults of a portion.
#[tactic(auto, unfolding(crate::specs::TableFaults::portion_faults))]
pub fn portion_faults(table: &TableDef, portion: &Option<Portion>) -> Faults
    ensures { result ≡ portion_faults table.now portion.now }
{
    match portion {
        Some(portion) => Faults {
            unknown: !portion.period.is(&table.period.name),
            empty: portion.to <= portion.from,
            ..Faults::none()
        },
        None => Faults::none(),
    }
}

/// Whether a column is set more than once by these.
#[tactic(auto, unfolding(crate::specs::TableFaults::is_set_again))]
fn is_set_again(assignments: &[Assignment], set: &Assignment) -> bool
    ensures { result ≡ is_set_again assignments.now set.now }
{
    let mut count = 0;
    for other in assignments {
        if set.column.is(&other.column) {
            count += 1;
        }
    }
    MatchCount::Many.is(count)
}

/// Whether some column is set more than once.
#[tactic(auto, unfolding(crate::specs::TableFaults::sets_twice))]
fn sets_twice(assignments: &[Assignment]) -> bool
    ensures { result ≡ sets_twice assignments.now }
{
    assignments.iter().any(|set| is_set_again(assignments, set))
}

/// The fault of a column that is set more than once.
pub fn twice_fault(assignments: &[Assignment]) -> Faults
    ensures { result ≡ twice_fault assignments.now }
{
    Faults {
        twice: sets_twice(assignments),
        ..Faults::none()
    }
}
