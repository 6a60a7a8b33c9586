//! The law of change days. The function does nothing; its contract is the law.

ghost use Rattle.snapshot_audit.specs.Laws.{ConstantBetweenChangeDays};

/// Between two neighbouring change days, and after the last, every query's set and the list's
/// snapshot stay the same.
pub fn constant_between_change_days()
    ensures { ConstantBetweenChangeDays }
{}
