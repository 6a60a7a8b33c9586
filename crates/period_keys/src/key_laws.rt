//! The laws of keys and references. Each function does nothing, and its contract is a law.

ghost use Rattle.period_keys.specs.Laws.{ClashesAfterChange, ClashesAreOfDays};
ghost use Rattle.period_keys.specs.Laws.{UncoveredAreOfDays};

/// Period rows clash on a day exactly if two of the rows that hold on it have equal keys.
pub fn clashes_are_of_days()
    ensures { ClashesAreOfDays }
{}

/// A child is uncovered on a day exactly if one that holds on it has no parent of its key among
/// those that hold on it.
pub fn uncovered_are_of_days()
    ensures { UncoveredAreOfDays }
{}

/// If no two rows of a key shared a day before a change, they do after it exactly if an added row
/// shares one with a row of its key that is not removed, or with another added one.
pub fn clashes_after_change()
    ensures { ClashesAfterChange }
{}
