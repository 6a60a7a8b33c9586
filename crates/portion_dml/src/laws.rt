//! Laws of plans. Each function does nothing, and its contract is the law.

ghost use Rattle.portion_dml.specs.Laws.{InsidesAreWhole, LeftoversKeepValues, PlansMakeVersions};
ghost use Rattle.portion_dml.specs.Laws.{PlansTakeEffect, UntouchedPlansAreEmpty};

/// The plan of a change, applied, makes of the versions what the definition of the change does.
pub fn plans_make_versions()
    ensures { PlansMakeVersions }
{}

/// A change makes of the version rows what it makes of each day's rows from its moment on. What
/// was held as of an earlier moment stays.
pub fn plans_take_effect()
    ensures { PlansTakeEffect }
{}

/// An action that gives no rows and touches none has the empty plan.
pub fn untouched_plans_are_empty()
    ensures { UntouchedPlansAreEmpty }
{}

/// A row inside the portion is not split.
pub fn insides_are_whole()
    ensures { InsidesAreWhole }
{}

/// The leftovers of a row outside the portion keep its values.
pub fn leftovers_keep_values()
    ensures { LeftoversKeepValues }
{}
