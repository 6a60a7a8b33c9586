//! The rows that would be current after a plan.

ghost use Rattle.std.specs.Prelude.{◌≡◌, ◌↔◌, ◌∷◌, Contains, IfNone, IfOk, IfSome, IsPermutation};
ghost use Rattle.std.specs.Prelude.{IsTrue, Some, map, slice_get};
ghost use Rattle.std.specs.Bool.{OnFalse, OnTrue};
ghost use Rattle.catalog_core.specs.declared.change.Action.{Action};
ghost use Rattle.history_model.specs.Versions.{row_of};
ghost use Rattle.portion_dml.specs.Plans.{AreLeftCurrent, EndsRows, HaveEffect, Plans};

use catalog_core::Plan;
use period_core::{Memory, PeriodRow, VersionRow};
use std::alloc::Global;

/// Whether two versions are equal.
fn is_same(version: &VersionRow, other: &VersionRow) -> bool
    ensures { IsTrue result ↔ (version.now ≡ other.now) }
{
    *version == *other
}

/// References to the versions.
fn references_to(alloc: Global, versions: &[VersionRow]) -> Result<Vec<&VersionRow>, Memory>
    ensures { IfOk result (λ v. map (λ r. r.now) v.items ≡ versions.now) }
{
    let mut references = Vec::new(alloc);
    for version in versions {
        references.push(version)?;
    }
    Ok(references)
}

/// The place of the first such version, if there is one.
fn place_of(versions: &[&VersionRow], version: &VersionRow) -> Option<usize>
    ensures found { IfSome result
        (λ place. slice_get (map (λ r. r.now) versions.now) place ≡ Some version.now) }
    ensures absent { IfNone result
        (Contains (map (λ r. r.now) versions.now) version.now → ⊥) }
{
    for i in 0..versions.len() {
        let other = versions[i];
        if is_same(other, version) {
            return Some(i);
        }
    }
    None
}

/// Takes one such version out of those that are left, and says whether it was there.
fn take_out(left: &mut Vec<&VersionRow>, version: &VersionRow) -> bool
    ensures taken { OnTrue result (IsPermutation (map (λ r. r.now) left.old.items)
        (version.now ∷ map (λ r. r.now) left.new.items)) }
    ensures absent { OnFalse result
        (Contains (map (λ r. r.now) left.old.items) version.now → ⊥) }
    ensures kept { OnFalse result (left.new.items ≡ left.old.items) }
{
    let Some(place) = place_of(left.as_slice(), version) else {
        return false;
    };
    let _taken = left.remove(place);
    true
}

/// The version's values over its period.
fn period_row(alloc: Global, version: &VersionRow) -> Result<PeriodRow, Memory>
    ensures { IfOk result (λ row. row ≡ row_of version.now) }
{
    Ok(PeriodRow {
        values: version.values.copy(alloc)?,
        period: version.period,
    })
}

/// The rows that would be current after a plan. The plan ends rows of the list, each once, in any
/// order; it is quickest if it ends them in the order of the list, as each plan of this crate
/// does.
pub fn after(alloc: Global, current: &[VersionRow], plan: &Plan) -> Result<Vec<PeriodRow>, Memory>
    requires { EndsRows current.now plan.now }
    ensures left { IfOk result (λ rows. AreLeftCurrent current.now plan.now rows.items) }

    // After the plan of a change each day has what the change makes of that day's rows.
    ensures effect { IfOk result (λ rows. (action : Action) → Plans action current.now plan.now
        → HaveEffect action (map row_of current.now) rows.items) }
{
    let mut left = references_to(alloc, plan.ended.as_slice())?;
    let mut rows = Vec::new(alloc);
    for version in current {
        if !take_out(&mut left, version) {
            rows.push(period_row(alloc, version)?)?;
        }
    }
    for row in plan.added.as_slice() {
        rows.push(row.copy(alloc)?)?;
    }
    Ok(rows)
}
