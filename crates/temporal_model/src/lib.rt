//! Snapshots, shortest lists and witnesses. The definitions are in `specs/`; each function here
//! does nothing, and its contract is a law over them.
#![tactic(auto)]

ghost use Rattle.temporal_model.specs.Laws.{CertifiedIsShortest, CertifiedMapsOneToOne};
ghost use Rattle.temporal_model.specs.Laws.{CertifiedIsUnique, SameSnapshotsSameRows};
ghost use Rattle.temporal_model.specs.Laws.{AgreementOnDaysSuffices, ConstantBetweenChanges};

/// A certified list is the shortest of its snapshots.
pub fn certified_is_shortest()
    ensures { CertifiedIsShortest }
{}

/// An equivalent list has a row of its own for each row of a certified list: one of the same
/// values that begins on the same day.
pub fn certified_maps_one_to_one()
    ensures { CertifiedMapsOneToOne }
{}

/// An equivalent list of the same length is the certified list in another order.
pub fn certified_is_unique()
    ensures { CertifiedIsUnique }
{}

/// Two answers with the same snapshots are the same list of rows.
pub fn same_snapshots_same_rows()
    ensures { SameSnapshotsSameRows }
{}

/// Lists of rows that agree on every day that a period can cover are equivalent.
pub fn agreement_on_days_suffices()
    ensures { AgreementOnDaysSuffices }
{}

/// A snapshot stays the same if no row begins or ends.
pub fn constant_between_changes()
    ensures { ConstantBetweenChanges }
{}
