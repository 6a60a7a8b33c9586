//! Results at the system's time, to which the clock is moved before each statement but a query.

ghost use Rattle.std.specs.Prelude.{◌≡◌, ◌↔◌, ◌/◌, IsTrue};
ghost use Rattle.std.specs.Duration.{as_nanos};
ghost use Rattle.period_core.specs.Moments.{first_moment};
ghost use Rattle.sql_statements.specs.Plain.{plain};
ghost use Rattle.history_model.specs.Histories.{clock_of};
ghost use Rattle.version_store.specs.StoreState.{SparesOthers};
ghost use Rattle.script_engine.specs.engine.Runs.{IsQuery};
ghost use Rattle.script_engine.specs.engine.Stored.{IfRepresents, RepresentsSome, WasUsable};
ghost use Rattle.script_engine.specs.script.Timed.{AtStep, AtStepOver, Readies};
ghost use Rattle.script_engine.specs.script.Timed.{TimedPieceStep, TimedPieceStepOver, is_ahead};
ghost use Rattle.script_engine.specs.script.Timed.{system_moment};

use crate::engine::Engine;
use crate::script::piece_result::PieceResult;
use period_core::{Moment, Refusal};
use sql_statements::{ClockMoment, Statement, StatementForm};
use sqlite_trees::store::Alter;
use std::alloc::Global;
use std::io;
use std::io::ErrorKind;
use std::time::{Clock, Duration};

/// The result of a piece, and the system's time as it was run. Before each statement but a query
/// the clock is moved to that time, if it is later than the clock. An AT of the script that is
/// later than that time is refused with 13.
#[derive(Drop)]
pub struct Timed<K> {
    /// The system's time, in whole microseconds. The first moment if the system gave none from
    /// 1970-01-01 00:00:00 on that is before FOREVER, and of a piece that is refused by its text.
    pub time: Moment,
    /// The result of the piece.
    pub kept: K,
}

/// A clock that gives no time.
pub(crate) struct NoClock;

impl Clock for NoClock {
    fn monotonic(&self) -> io::Result<Duration> {
        Err(io::Error::from(ErrorKind::Unsupported))
    }

    fn since_1970(&self) -> io::Result<Duration> {
        Err(io::Error::from(ErrorKind::Unsupported))
    }
}

// The moment after so much time since 1970-01-01 00:00:00.
fn moment_after(since_1970: Duration) -> ClockMoment
    ensures { result ≡ system_moment (as_nanos since_1970 / 1_000) }
{
    let Ok(number) = i64::try_from(since_1970.as_micros()) else {
        return ClockMoment::first();
    };
    let Some(moment) = Moment::new(number) else {
        return ClockMoment::first();
    };
    match ClockMoment::new(moment) {
        Some(moment) => moment,
        None => ClockMoment::first(),
    }
}

/// The moment that a clock gives, in whole microseconds. The first one if it gives none from
/// 1970-01-01 00:00:00 on that is before FOREVER.
pub fn system_time<C: Clock>(clock: &C) -> ClockMoment {
    match clock.since_1970() {
        Ok(since_1970) => moment_after(since_1970),
        Err(_) => ClockMoment::first(),
    }
}

// Whether a statement is an AT that is later than a time.
fn is_ahead_of(time: ClockMoment, statement: &Statement) -> bool
    ensures { result ≡ is_ahead time (plain statement.now) }
{
    match statement.form() {
        StatementForm::At(moment) => time.moment() < moment.moment(),
        _ => false,
    }
}

// Whether a statement asks, and changes nothing.
fn is_query(statement: &Statement) -> bool
    ensures { IsTrue result ↔ IsQuery (plain statement.now) }
{
    matches!(
        statement.form(),
        StatementForm::Sequenced(_) | StatementForm::Stored(_)
    )
}

// Moves the clock to a time, if a statement that is to be run then wants it. An `Err` refuses
// the statement and changes nothing.
fn ready<S: Alter>(
    engine: &mut Engine<S>,
    time: ClockMoment,
    statement: &Statement,
) -> Result<(), Refusal>
    ensures step { IfRepresents S.Store engine.old engine.new (λ history.
        RepresentsSome S.Store (Readies AtStep clock_of time (plain statement.now) history result)
        engine.new) }
    ensures over { Readies (AtStepOver S.Store) (λ state. state.clock) time (plain statement.now)
        engine.old result engine.new }
    ensures usable { WasUsable S.Store engine.old.connection engine.new.connection }
    ensures others { SparesOthers S.Store engine.old.connection engine.new.connection }
{
    if is_ahead_of(time, statement) {
        return Err(Refusal::BadMoment);
    }
    if is_query(statement) || time.moment() <= engine.clock() {
        return Ok(());
    }
    engine.advance(time)?;
    Ok(())
}

impl<S: Alter, K: PieceResult<S>> PieceResult<S> for Timed<K> {
    ghost is_step = { TimedPieceStep K.is_step K.of_refusal };

    ghost is_step_over = { TimedPieceStepOver S.Store K.is_step_over K.of_refusal };

    ghost of_refusal = { λ refusal. record { time = first_moment; kept = K.of_refusal refusal } };

    fn refused(refusal: Refusal) -> Timed<K> {
        Timed {
            time: Moment::first(),
            kept: K::refused(refusal),
        }
    }

    fn executed<C: Clock>(
        alloc: Global,
        engine: &mut Engine<S>,
        clock: &C,
        statement: &Statement,
    ) -> Timed<K> {
        let time = system_time(clock);
        match ready(engine, time, statement) {
            Ok(()) => Timed {
                time: time.moment(),
                kept: K::executed(alloc, engine, clock, statement),
            },
            Err(refusal) => Timed {
                time: time.moment(),
                kept: K::refused(refusal),
            },
        }
    }
}
