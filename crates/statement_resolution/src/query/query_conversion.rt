//! A query with positions in place of names, and its faults, in one walk.

ghost use Rattle.std.specs.Prelude.{◌+◌, ◌<◌, IfOk};
ghost use Rattle.sql_statements.specs.Plain.{plain_query};
ghost use Rattle.statement_resolution.specs.query.Places.{Converts, table_count};
ghost use Rattle.statement_resolution.specs.query.QueryParts.{selects_of};

use crate::faults::Faults;
use crate::query::select_conversion::convert_select;
use crate::query::sides::{Side, combine};
use catalog_core::Catalog;
use period_core::Memory;
use sql_statements::{QueryTree, SelectDistinct};
use std::alloc::Global;

/// A query by positions: its set operators apply from left to right. The places of its references
/// count up from this one, which becomes that after the last. Its faults are added to those found
/// so far.
pub fn convert_query(
    alloc: Global,
    catalog: &Catalog,
    query: &QueryTree<SelectDistinct>,
    place: &mut usize,
    faults: &mut Faults,
) -> Result<Side, Memory>
    requires { place.old + table_count (selects_of (plain_query query.now)) < 1_000 }
    ensures { IfOk result (λ side. Converts catalog.now.tables (plain_query query.now)
        place.old place.new faults.old faults.new side) }
{
    match query {
        QueryTree::Select(select) => convert_select(alloc, catalog, select, place, faults),
        QueryTree::Combined(first, steps) => {
            let mut left = convert_query(alloc, catalog, first, place, faults)?;
            for step in steps {
                let right = convert_query(alloc, catalog, &step.1, place, faults)?;
                left = combine(alloc, step.0, left, right, faults)?;
            }
            Ok(left)
        }
    }
}
