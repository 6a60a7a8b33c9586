//! The sides of set operators: queries by positions with the kinds of their columns, and the faults
//! of two of them.

ghost use Rattle.std.specs.Prelude.{◌≡◌, IfOk};
ghost use Rattle.statement_resolution.specs.Faults.{either};
ghost use Rattle.statement_resolution.specs.query.Faults.{differ_somewhere, kinds_faults};
ghost use Rattle.catalog_core.specs.query.Queries as resolved;
ghost use Rattle.catalog_core.specs.query.Queries.{both};

use crate::faults::Faults;
use catalog_core::resolved::Query;
use catalog_core::{ValueKind, differ};
use period_core::Memory;
use sql_statements::SetOperator;
use std::alloc::Global;

/// A query by positions, and the kinds of its columns: nothing for a name that matches none.
#[derive(Drop)]
pub struct Side {
    pub query: Query,
    pub kinds: Vec<Option<ValueKind>>,
}

/// Whether columns in the same place are of two kinds.
fn have_other_kinds(left: &[Option<ValueKind>], right: &[Option<ValueKind>]) -> bool
    ensures { result ≡ differ_somewhere left.now right.now }
{
    let [x, more_left @ ..] = left else {
        return false;
    };
    let [y, more_right @ ..] = right else {
        return false;
    };
    differ(*x, *y) || have_other_kinds(more_left, more_right)
}

/// The faults of a set operator over sides with columns of these kinds.
fn operator_faults(left: &[Option<ValueKind>], right: &[Option<ValueKind>]) -> Faults
    ensures { result ≡ kinds_faults left.now right.now }
{
    Faults {
        count: left.len() != right.len(),
        kinds: have_other_kinds(left, right),
        ..Faults::none()
    }
}

/// Two sides under a set operator, whose faults are added to those found so far. The columns are
/// those of the left side.
pub fn combine(
    alloc: Global,
    operator: SetOperator,
    left: Side,
    right: Side,
    faults: &mut Faults,
) -> Result<Side, Memory>
    ensures query { IfOk result (λ side. resolved.plain_query side.query ≡ both operator
        (resolved.plain_query left.query) (resolved.plain_query right.query)) }
    ensures kinds { IfOk result (λ side. side.kinds.items ≡ left.kinds.items) }
    ensures faults { IfOk result
        (λ _. faults.new ≡ either faults.old (kinds_faults left.kinds.items right.kinds.items)) }
{
    *faults = faults.or(operator_faults(left.kinds.as_slice(), right.kinds.as_slice()));
    let first = Box::new(alloc, left.query)?;
    let second = Box::new(alloc, right.query)?;
    Ok(Side {
        query: Query::Combined(operator, first, second),
        kinds: left.kinds,
    })
}
