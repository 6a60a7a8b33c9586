//! The tables at each moment: a day and versions after a change, the histories
//! of a store and their states, what windows see, and the ordinary query on a day. The definitions
//! are in `specs/`; each function here does nothing, and its contract is a law over them. A new
//! form of change gets its clauses in `specs/Effects` and `specs/Portions`, a new form of query its
//! clause in `specs/OrdinaryQuery`.
#![tactic(auto)]

ghost use Rattle.history_model.specs.Laws.{AdvancesMoveTheClock, ChangesAreRepresented};
ghost use Rattle.history_model.specs.Laws.{ChangesTakeEffect, CreationsAddTables};
ghost use Rattle.history_model.specs.Laws.{CurrentVersionsHold, EarlierStatesStay};
ghost use Rattle.history_model.specs.Laws.{HistoriesLeaveOneList, OpeningsAreRepresented};
ghost use Rattle.history_model.specs.Laws.{QueriesChangeNothing, VersionsHoldTheStates};
ghost use Rattle.history_model.specs.Laws.{WindowsSeeStates};
ghost use Rattle.history_model.specs.Moved.{MovedOpeningsAreInOrder, MovedStatesStay};
ghost use Rattle.history_model.specs.Moved.{MovedWindowsStay};
ghost use Rattle.history_model.specs.Slices.{SlicesMakeTheWhole};

/// Whatever a store keeps, it represents the history that opens with it. So what is said of each
/// history that a store represents is said of one at the least.
pub fn openings_are_represented()
    ensures { OpeningsAreRepresented }
{}

/// A changed database represents the history with one more change. The
/// versions stay as a store may have them, and those that the history leaves.
pub fn changes_are_represented()
    ensures { ChangesAreRepresented }
{}

/// The versions that a history in order leaves, up to their order, hold its state as of every
/// moment on every day.
pub fn versions_hold_the_states()
    ensures { VersionsHoldTheStates }
{}

/// A history leaves one list of versions of each table, up to its order.
pub fn histories_leave_one_list()
    ensures { HistoriesLeaveOneList }
{}

/// A table reference sees through its FOR SYSTEM_TIME the rows that its table had at the moments
/// that the window looks at. Without FOR SYSTEM_TIME that is the last moment, the one before
/// FOREVER.
pub fn windows_see_states()
    ensures { WindowsSeeStates }
{}

/// From the clock on the versions of a store hold what the current ones hold.
pub fn current_versions_hold()
    ensures { CurrentVersionsHold }
{}

/// AT moves the clock, and changes neither the catalog nor the state at any moment.
pub fn advances_move_the_clock()
    ensures { AdvancesMoveTheClock }
{}

/// A creation adds its definition at the end of the catalog, and changes neither the clock nor the
/// state at any moment.
pub fn creations_add_tables()
    ensures { CreationsAddTables }
{}

/// From its moment on a change has its effect on each table's rows on each day.
pub fn changes_take_effect()
    ensures { ChangesTakeEffect }
{}

/// No change is seen in the state at an earlier moment.
pub fn earlier_states_stay()
    ensures { EarlierStatesStay }
{}

/// A query changes neither the clock nor the catalog nor the state at any moment.
pub fn queries_change_nothing()
    ensures { QueriesChangeNothing }
{}

/// A query may be asked of tables that are cut into slices of the days, of each slice alone: what
/// it gives over the slices is on each day, taken together, what it gives over the whole tables,
/// whatever the borders.
pub fn slices_make_the_whole()
    ensures { SlicesMakeTheWhole }
{}

/// A store that counted in whole seconds holds the same once its moments are moved to
/// microseconds, and its open end to FOREVER: at each whole second before that open end on each
/// day, in each table, and through each system-time window that begins before it, whose seconds
/// are the moments at which they begin. A window may end with the old open end, which as a whole
/// second is after each closed version's end and before FOREVER. Histories go on from there in
/// order.
pub fn moves_keep_the_states()
    ensures states { MovedStatesStay }
    ensures windows { MovedWindowsStay }
    ensures order { MovedOpeningsAreInOrder }
{}
