//! Laws of lawful changes. Each function does nothing, and its contract is a law.

ghost use Rattle.period_keys.specs.LawfulLaws.{ChangesBreakTheirOwnReferences};
ghost use Rattle.period_keys.specs.LawfulLaws.{KeyFaultsAreClashes, LackingParentsAreUncovered};
ghost use Rattle.period_keys.specs.LawfulLaws.{StatesStayLawful};

/// Given no clash before, the rows that are current after a change clash on exactly the days on
/// which it makes two rows of different origins share the key.
pub fn key_faults_are_clashes()
    ensures { KeyFaultsAreClashes }
{}

/// Child rows without a parent are the uncovered ones of the period rows that hold the state.
pub fn lacking_parents_are_uncovered()
    ensures { LackingParentsAreUncovered }
{}

/// Given all covered before, a child row without its parent after a change is one of the table that
/// is changed, or it names a row of that table.
pub fn changes_break_their_own_references()
    ensures { ChangesBreakTheirOwnReferences }
{}

/// A lawful change of a lawful state makes a lawful state.
pub fn states_stay_lawful()
    ensures { StatesStayLawful }
{}
