//! Consequences of the theorem of sequenced answers, and of the definitions of what is stored.
//! Each function does nothing: its contract is a law.

ghost use Rattle.script_engine.specs.Laws.{AnswersAreUnique, AnswersMapOneToOne};
ghost use Rattle.script_engine.specs.Laws.{SameSnapshotsSameAnswers, SlicesJoinToTheAnswer};
ghost use Rattle.script_engine.specs.engine.Audits.{AuditsAgree, AuditsCountOnce};
ghost use Rattle.script_engine.specs.engine.Moved.{StoresMoveAsTheModel};
ghost use Rattle.script_engine.specs.script.Noted.{ChangesEndOrForget};
ghost use Rattle.script_engine.specs.script.ReadOnly.{ReadOnlyRunsAreRuns};
ghost use Rattle.script_engine.specs.script.ReadOnly.{ReadOnlyRunsChangeNothing};
ghost use Rattle.script_engine.specs.script.Timed.{TimedClocksGoOn, TimedRunsAreRuns};

/// A list with the same snapshots has a row of its own for each row of an answer, of the same
/// values and first day. So no such list is shorter.
pub fn answers_map_one_to_one()
    ensures { AnswersMapOneToOne }
{}

/// A list with the same snapshots and as many rows is the answer in another order.
pub fn answers_are_unique()
    ensures { AnswersAreUnique }
{}

/// Two answers with the same snapshots have the same rows in the same order.
pub fn same_snapshots_same_answers()
    ensures { SameSnapshotsSameAnswers }
{}

/// A query may be asked of tables that are cut into slices of the days, of each slice alone. What
/// it gives over them, joined where equal rows meet at a border, is its answer over the whole
/// tables.
pub fn slices_join_to_the_answer()
    ensures { SlicesJoinToTheAnswer }
{}

/// An audit of a sequenced answer agrees: there is no other verdict over what the references of its
/// query see.
pub fn audits_agree()
    ensures { AuditsAgree }
{}

/// Audits of an answer give one number of days, the number of the change days of the answer and of
/// the rows that the references of its query see.
pub fn audits_count_once()
    ensures { AuditsCountOnce }
{}

/// If a store that counts moments in whole seconds has what a database of the model keeps, it
/// has in microseconds what the moved database keeps. So the law of moved openings is one of stores
/// that are opened.
pub fn stores_move_as_the_model()
    ensures { StoresMoveAsTheModel }
{}

/// A run at the system's time is a run of the same script with ATs put before its statements. So
/// what is said of runs is said of it too.
pub fn timed_runs_are_runs()
    ensures { TimedRunsAreRuns }
{}

/// At the system's time the clock never moves back, and never beyond that time.
pub fn timed_clocks_go_on()
    ensures { TimedClocksGoOn }
{}

/// A run over a store that is only read is a run of the same script, in which what is no query is
/// refused. So what is said of runs is said of it too.
pub fn read_only_runs_are_runs()
    ensures { ReadOnlyRunsAreRuns }
{}

/// A run over a store that is only read leaves the clock, the tables, and what they hold as of each
/// moment.
pub fn read_only_runs_change_nothing()
    ensures { ReadOnlyRunsChangeNothing }
{}

/// Of the versions that a change touches each has ended after it, or is forgotten: nothing else is
/// lost of them.
pub fn changes_end_or_forget()
    ensures { ChangesEndOrForget }
{}
