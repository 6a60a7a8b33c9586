//! The assignments and the portion of an UPDATE or a DELETE, with positions in place of names. The
//! faults of each are added to those found so far.

ghost use Rattle.std.specs.Prelude.{◌≡◌, IfOk, map};
ghost use Rattle.statement_resolution.specs.Faults.{either, faults_among, no_faults};
ghost use Rattle.statement_resolution.specs.Placing.{or_zero, placed_assignment};
ghost use Rattle.statement_resolution.specs.Positions.{period_days, portion_days};
ghost use Rattle.statement_resolution.specs.TableFaults as judged;
ghost use Rattle.catalog_core.specs.query.Selection as word;

use crate::change::portion_faults::{portion_faults, set_faults};
use crate::faults::Faults;
use catalog_core::{Assignment, TableDef, value_position};
use period_core::{Items, Memory, Period};
use sql_statements::{Name, Portion};
use std::alloc::Global;

/// The position of a column: 0 if it has none, as in no accepted statement.
fn position_or_zero(table: &TableDef, name: &Name) -> usize
    ensures { result ≡ or_zero (word.value_position table.now name.now) }
{
    match value_position(table, name) {
        Some(position) => position,
        None => 0,
    }
}

/// An assignment.
fn resolve_assignment(
    alloc: Global,
    table: &TableDef,
    set: &sql_statements::Assignment,
    found: &mut Faults,
) -> Result<Assignment, Memory>
    ensures numbered { IfOk result (λ numbered. placed_assignment table.now set.now ≡ numbered) }
    ensures judged { IfOk result
        (λ _. found.new ≡ either found.old (judged.set_faults table.now set.now)) }
{
    *found = found.or(set_faults(table, set));
    let position = position_or_zero(table, &set.column);
    let value = set.value.copy(alloc)?;
    Ok(Assignment { position, value })
}

/// The assignments of SET.
pub fn resolve_assignments(
    alloc: Global,
    table: &TableDef,
    assignments: &[sql_statements::Assignment],
    found: &mut Faults,
) -> Result<Items<Assignment>, Memory>
    ensures numbered { IfOk result
        (λ numbered. map (placed_assignment table.now) assignments.now ≡ numbered) }
    ensures judged { IfOk result (λ _. found.new
        ≡ either found.old (faults_among (judged.set_faults table.now) assignments.now)) }
{
    let mut numbered = Vec::with_capacity(alloc, assignments.len())?;
    for set in assignments {
        numbered.push(resolve_assignment(alloc, table, set, found)?)?;
    }
    Ok(Items::from_vec(numbered))
}

/// The period of FOR PORTION OF, if there is one: none if it would have no day, as in no accepted
/// statement.
#[tactic(auto, unfolding(crate::specs::TableFaults::portion_faults))]
pub fn resolve_portion(
    table: &TableDef,
    portion: &Option<Portion>,
    found: &mut Faults,
) -> Option<Period>
    ensures days { judged.portion_faults table.now portion.now ≡ no_faults
        → portion_days portion.now ≡ period_days result }
    ensures judged { found.new ≡ either found.old (judged.portion_faults table.now portion.now) }
{
    *found = found.or(portion_faults(table, portion));
    match portion {
        Some(portion) => Period::new(portion.from, portion.to),
        None => None,
    }
}
