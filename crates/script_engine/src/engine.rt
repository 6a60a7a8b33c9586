//! The engine: the statements that it runs over a store.

ghost use Rattle.std.specs.Prelude.{◌≡◌, ◌<ℤ◌, ◌≤ℤ◌, false, IsPermutation};
ghost use Rattle.std.specs.Prelude.{IfErr, IfOk, IfSome, MatchOption, OnErr, OnOk, Some, length};
ghost use Rattle.std.specs.Prelude.{true, ℤ};
ghost use Rattle.period_core.specs.Moments.{first_moment, forever};
ghost use Rattle.sqlite.specs.Held.{state};
ghost use Rattle.version_store.specs.Contents.{AreRowsOf, Contents};
ghost use Rattle.version_store.specs.GoodStore.{AreGood, IsGoodStore};
ghost use Rattle.version_store.specs.StoreState.{IsFailure, IsStoreRefusal, IsUsable};
ghost use Rattle.version_store.specs.StoreState.{LeavesHealthy, SparesOthers, StaysOnErr};
ghost use Rattle.version_store.specs.StoreState.{StoreRepresents};
ghost use Rattle.history_model.specs.Histories.{Advanced, History, state_at, with_event};
ghost use Rattle.history_model.specs.Versions.{values_at};
ghost use Rattle.script_engine.specs.engine.Ended.{ended_in};
ghost use Rattle.script_engine.specs.engine.EngineState.{store_of};
ghost use Rattle.script_engine.specs.engine.Faults.{AreConstrained};
ghost use Rattle.script_engine.specs.engine.Healthy.{FailsOnFault, StatementFailsOnFault};
ghost use Rattle.script_engine.specs.engine.Healthy.{StatementLeavesHealthy};
ghost use Rattle.script_engine.specs.engine.InMemory.{IsSameInMemory};
ghost use Rattle.script_engine.specs.engine.Opens.{IsAheadOf, Opens, RefusesStore};
ghost use Rattle.script_engine.specs.engine.Over.{RunsOver, StepOver};
ghost use Rattle.script_engine.specs.engine.Planned.{IsResolved};
ghost use Rattle.script_engine.specs.engine.Runs.{IsQuery, MayRefuseMoment, MayRefuseQuery};
ghost use Rattle.script_engine.specs.engine.Runs.{StepsTo};
ghost use Rattle.script_engine.specs.engine.Stored.{EngineRepresents, IfRepresents, KeepsOnErr};
ghost use Rattle.script_engine.specs.engine.Stored.{WasUsable};
ghost use Rattle.statement_reports.specs.declared.outcome.Outcome.TheVariants.{Done};
ghost use Rattle.statement_reports.specs.declared.outcome.Word.TheVariants as word;
ghost use Rattle.sql_statements.specs.Plain.{plain, plain_query, plain_stored};
ghost use Rattle.sql_statements.specs.Trees.{Statement as StatementModel};
ghost use Rattle.sql_statements.specs.Trees as statement;

mod audits;
mod chained;
mod changed;
mod conditions;
mod copied;
mod in_memory;
mod lawfulness;
mod loaded;
mod looked_up_rows;
mod needed;
mod needed_rows;
mod outcome;
mod prepared;
mod read_lists;
mod reading;
mod sequenced_queries;
mod stored;
mod unwritten;
mod version_lists;

use crate::engine::in_memory::TablesInMemory;
use crate::engine::lawfulness::{LawfulPlan, lawful_plan};
use crate::engine::loaded::load_lawful;
use crate::engine::needed::answer_query;
use crate::engine::outcome::done;
use crate::engine::stored::shown_by;
use crate::engine::version_lists::version_columns;
use catalog_core::{Catalog, Change, define};
use period_core::{Items, Moment, Refusal, VersionRow};
use sql_statements::{
    ClockMoment, CreateTable, QueryTree, SelectDistinct, Statement, StatementForm, StoredQuery,
};
use sqlite::Connection;
use sqlite_trees::store::Alter;
use statement_reports::{Outcome, VersionList, Word};
use statement_resolution::{
    resolve_delete, resolve_insert, resolve_sequenced, resolve_stored_query, resolve_update,
};
use std::alloc::Global;
use std::marker::Model;
use std::mem::ManuallyDrop;
use version_store::VersionStore;

/// The engine: its store, and in memory the tables of its catalog, with all versions of each. So
/// neither a change nor a query reads a row from the database.
#[derive(Drop)]
pub struct Engine<S: Alter> {
    store: VersionStore<S>,
    tables: TablesInMemory,
}

impl<S: Alter> Model for Engine<S> {
    ghost use Rattle.script_engine.specs.engine.EngineState.{EngineState, engine_with};
    ghost use Rattle.script_engine.specs.engine.EngineState.{engine_state_code};
    ghost use Rattle.script_engine.specs.engine.Ended.{AllEndedBy};
    ghost use Rattle.script_engine.specs.engine.InMemory.{FollowCatalog};

    ghost Value = { EngineState S };

    ghost coded = { engine_state_code S.code };

    ghost view = { λ e. engine_with e.store e.tables };

    ghost invariant = { λ e. FollowCatalog e.store.catalog.tables e.tables.current
        × AllEndedBy e.store.clock e.tables.ended };
}

/// Whether a clock is later than a moment, if there is one.
fn is_after(clock: Moment, latest: Option<Moment>) -> bool
    ensures later { result ≡ true → MatchOption latest ⊥ (λ moment. moment <ℤ clock) }
    ensures moved { result ≡ true → first_moment <ℤ clock }
    ensures up_to { result ≡ false → IfSome latest (λ moment. clock ≤ℤ moment) }
{
    match latest {
        Some(moment) => moment < clock,
        None => false,
    }
}

/// The connection of a store: a good store's is good.
fn connection_of<S: Alter>(store: VersionStore<S>) -> Connection<S>
    ensures same { result ≡ store.connection }
    ensures settled { result.in_transaction ≡ false }
    ensures good { IsUsable S.Store result
        → (c : Contents) → StoreRepresents S.Store store c → AreGood AreConstrained c
        → IsGoodStore AreConstrained (state S.Store result).now }
{
    let connection = store.close();
    // For the proof alone: while a connection is open, no two rows share a key.
    let _live = connection.schema();
    connection
}

// A clause of a store's contents holds if its connection is usable as the call ends: its disk is
// clean, and no failure has shut it. A store in memory always is. Without that each call is safe
// and returns; `open` gives only the refusals that it names; and `at` and `execute` are refused
// only for a condition that holds of the catalog and the clock in memory, which a refusal leaves as
// they were. A refusal leaves the database as it was whatever tables it has.
impl<S: Alter> Engine<S> {
    /// Opens a store: a new one in a database that has none of its three tables, or else the one
    /// that exists, if it is a good one. One of form 1 is moved to form 2, in one transaction,
    /// once all of it has been judged; one of form 2 is not written. An `Err` hands the connection
    /// back: 60 for a store that is not good, 61 or 62. It changes nothing, and no transaction is
    /// open on the connection.
    pub fn open(
        alloc: Global,
        connection: Connection<S>,
    ) -> Result<Engine<S>, (Refusal, Connection<S>)>
        requires { connection.in_transaction ≡ false }

        ensures opened { IfOk result (Opens S.Store connection) }
        ensures refused { IfErr result (λ failed.
            RefusesStore S.Store connection failed.0 failed.1) }
        ensures settled { IfErr result (λ failed. failed.1.in_transaction ≡ false) }
    {
        match Engine::open_by(alloc, connection, None) {
            Ok(engine) => Ok(engine),
            Err((cause, connection)) => match cause {
                Some(refusal) => Err((refusal, connection)),
                None => unreachable!(),
            },
        }
    }

    /// Opens a store as `open` does, unless its clock is later than a moment, if there is one. An
    /// `Err` without a refusal says that it is: it changes nothing, and a store of form 1 stays so.
    pub fn open_by(
        alloc: Global,
        connection: Connection<S>,
        latest: Option<Moment>,
    ) -> Result<Engine<S>, (Option<Refusal>, Connection<S>)>
        requires { connection.in_transaction ≡ false }
        ensures opened { IfOk result (Opens S.Store connection) }
        ensures by { IfOk result (λ engine. IfSome latest (λ moment. engine.clock ≤ℤ moment)) }
        ensures refused { IfErr result (λ failed. MatchOption failed.0
            (MatchOption latest ⊥ (IsAheadOf S.Store connection failed.1))
            (λ refusal. RefusesStore S.Store connection refusal failed.1)) }
        ensures settled { IfErr result (λ failed. failed.1.in_transaction ≡ false) }
    {
        let (opened, lists) = match VersionStore::open(alloc, connection) {
            Ok(found) => found,
            Err((refusal, connection)) => return Err((Some(refusal), connection)),
        };
        let clock = opened.clock();
        let tables = match load_lawful(alloc, opened.catalog(), clock, lists) {
            Ok(loaded) => loaded,
            Err(refusal) => return Err((Some(refusal), opened.refuse())),
        };
        if is_after(clock, latest) {
            return Err((None, opened.refuse()));
        }
        match opened.accept() {
            Ok(store) => Ok(Engine { store, tables }),
            Err((refusal, connection)) => Err((Some(refusal), connection)),
        }
    }

    /// The connection, on which no transaction is open. What the engine represents is a good store,
    /// so `open` does not refuse it as a bad one.
    pub fn close(self) -> Connection<S>
        ensures same { result ≡ self.connection }
        ensures settled { result.in_transaction ≡ false }
        ensures good { IsUsable S.Store result
            → (history : History) → EngineRepresents S.Store history self
            → IsGoodStore AreConstrained (state S.Store result).now }
    {
        let Engine { store, tables: _ } = self;
        connection_of(store)
    }

    /// Closes the store for a program that ends soon. The memory of the rows is left to the end of
    /// the process: to give many rows back, one by one, takes time.
    pub fn close_at_exit(self) -> Connection<S>
        ensures same { result ≡ self.connection }
        ensures settled { result.in_transaction ≡ false }
        ensures good { IsUsable S.Store result
            → (history : History) → EngineRepresents S.Store history self
            → IsGoodStore AreConstrained (state S.Store result).now }
    {
        let Engine { store, tables } = self;
        let _tables = ManuallyDrop::new(tables);
        connection_of(store)
    }

    /// The clock: the moment of the last AT, in a new store the first moment.
    pub fn clock(&self) -> Moment
        ensures { result ≡ self.now.clock }
    {
        self.store.clock()
    }

    /// The tables' definitions in the order of their creation.
    pub fn catalog(&self) -> &Catalog
        ensures { result.now ≡ self.now.catalog }
    {
        self.store.catalog()
    }

    /// The number of versions of the table of a number that have ended; none of a number without a
    /// table.
    pub(crate) fn ended_of(&self, table: u8) -> usize
        ensures { result ≡ length (ended_in self.now.ended table) }
    {
        match self.tables.table(table) {
            Some(versions) => versions.ended.len(),
            None => 0,
        }
    }

    /// The version rows of the table of a number, by values, then period start, then system start:
    /// as of each moment they hold on each day the state of the table, each row as often. Nothing
    /// is changed.
    pub fn rows(&mut self, alloc: Global, table: u8) -> Result<Vec<VersionRow>, Refusal>
        ensures rows { IsUsable S.Store self.new.connection
            → (c : Contents) → StoreRepresents S.Store (store_of self.old) c
            → IfOk result (λ rows. AreRowsOf c table rows.items) }
        ensures why { IsUsable S.Store self.new.connection
            → (c : Contents) → StoreRepresents S.Store (store_of self.old) c
            → IfErr result (IsFailure S.Store self.old.connection self.new.connection) }
        ensures states { IfRepresents S.Store self.old self.new (λ history.
            IfOk result (λ rows. (moment day : ℤ) → moment <ℤ forever → IsPermutation
            (values_at rows.items moment day) (state_at history moment table day))) }
        ensures same { IfRepresents S.Store self.old self.new (λ history.
            EngineRepresents S.Store history self.new) }
        ensures usable { WasUsable S.Store self.old.connection self.new.connection }
        ensures others { SparesOthers S.Store self.old.connection self.new.connection }
        ensures named { IfErr result IsStoreRefusal }
    {
        self.store.rows(alloc, table)
    }

    /// Moves the clock to a moment. An `Err` changes nothing: it is 13 for FOREVER, 40 for a
    /// moment before the clock, whatever memory there is, and 61 or 62 for other moments; over a
    /// healthy database, which stays healthy, 62 only if there was a fault of it.
    pub fn at(&mut self, moment: Moment) -> Result<(), Refusal>
        ensures moved { IfRepresents S.Store self.old self.new (λ history.
            OnOk result
            (EngineRepresents S.Store (with_event history (Advanced moment)) self.new)) }
        ensures later { OnOk result ((self.old.clock ≤ℤ moment) × (moment <ℤ forever)) }
        ensures advanced { OnOk result (self.new.clock ≡ moment) }
        ensures catalog { self.new.catalog ≡ self.old.catalog }
        ensures kept { KeepsOnErr S.Store self.old self.new result }
        ensures none_stored { StaysOnErr S.Store self.old.connection self.new.connection result }
        ensures refused { IfErr result (MayRefuseMoment self.old.clock moment) }
        ensures why { FailsOnFault S.Store self.old self.new result 0 }
        ensures healthy { LeavesHealthy S.Store (store_of self.old) (store_of self.new) result 0 }
        ensures memory { OnErr result (IsSameInMemory self.old self.new) }
        ensures usable { WasUsable S.Store self.old.connection self.new.connection }
        ensures others { SparesOthers S.Store self.old.connection self.new.connection }
    {
        match ClockMoment::new(moment) {
            Some(_) if moment < self.store.clock() => Err(Refusal::MomentBack),
            Some(_) => self.store.advance(moment),
            None => Err(Refusal::BadMoment),
        }
    }

    /// Runs an AT. An `Err` changes nothing.
    pub(crate) fn advance(&mut self, moment: ClockMoment) -> Result<Outcome, Refusal>
        ensures done { IfOk result (λ outcome. outcome ≡ Done word.At 0) }
        ensures step { IfRepresents S.Store self.old self.new (λ history.
            StepsTo S.Store history (statement.at moment) result self.new) }
        ensures kept { KeepsOnErr S.Store self.old self.new result }
        ensures over { StepOver S.Store self.old (statement.at moment) result self.new }
        ensures why { StatementFailsOnFault S.Store self.old (statement.at moment) result self.new }
        ensures healthy { StatementLeavesHealthy S.Store self.old (statement.at moment) result
            self.new }
        ensures others { SparesOthers S.Store self.old.connection self.new.connection }
    {
        self.at(moment.moment())?;
        Ok(Outcome::Done(Word::At, 0))
    }

    /// Runs a CREATE. An `Err` changes nothing.
    fn create(&mut self, alloc: Global, create: &CreateTable) -> Result<Outcome, Refusal>
        ensures step { IfRepresents S.Store self.old self.new (λ history.
            StepsTo S.Store history (statement.create create.now) result self.new) }
        ensures kept { KeepsOnErr S.Store self.old self.new result }
        ensures over { StepOver S.Store self.old (statement.create create.now) result self.new }
        ensures why { StatementFailsOnFault S.Store self.old (statement.create create.now) result
            self.new }
        ensures healthy { StatementLeavesHealthy S.Store self.old (statement.create create.now)
            result self.new }
        ensures others { SparesOthers S.Store self.old.connection self.new.connection }
    {
        let definition = define(alloc, self.store.catalog(), create)?;
        let catalog = self.store.catalog();
        self.tables.add(alloc, catalog, &definition)?;
        match self.store.add_table(alloc, definition) {
            Ok(()) => Ok(Outcome::Done(Word::Create, 0)),
            Err(refusal) => {
                self.tables.remove_last();
                Err(refusal)
            }
        }
    }

    /// Makes the index by which the rows are found that a change may touch, if there is to be one,
    /// and memory for it: without it all rows are looked at. Nothing is changed.
    fn prepare(&mut self, alloc: Global, resolved: &Result<Change, Refusal>)
        ensures { self.new ≡ self.old }
    {
        if let Ok(change) = resolved {
            let _made = self.tables.prepare_change(alloc, change);
        }
    }

    /// Makes the change of this word that a statement is resolved to, or is refused as it was:
    /// if the change is lawful, what its plan ends and adds is ended and added in one
    /// transaction, and in memory. An `Err` changes nothing.
    fn change(
        &mut self,
        alloc: Global,
        word: Word,
        resolved: Result<Change, Refusal>,
    ) -> Result<Outcome, Refusal>
        requires { (s : StatementModel) × IsResolved self.old.catalog.tables s word resolved }
        ensures step { IfRepresents S.Store self.old self.new (λ history.
            (s : StatementModel) → IsResolved self.old.catalog.tables s word resolved
            → StepsTo S.Store history s result self.new) }
        ensures kept { KeepsOnErr S.Store self.old self.new result }
        ensures over { (s : StatementModel) → IsResolved self.old.catalog.tables s word resolved
            → StepOver S.Store self.old s result self.new }
        ensures why { (s : StatementModel) → IsResolved self.old.catalog.tables s word resolved
            → StatementFailsOnFault S.Store self.old s result self.new }
        ensures healthy { (s : StatementModel) → IsResolved self.old.catalog.tables s word resolved
            → StatementLeavesHealthy S.Store self.old s result self.new }
        ensures others { SparesOthers S.Store self.old.connection self.new.connection }
    {
        let change = resolved?;
        let table = change.table;
        let catalog = self.store.catalog();
        let made = lawful_plan(alloc, catalog, self.tables.current(), change)?;
        let LawfulPlan { plan, keys } = made;
        self.tables
            .apply(alloc, &mut self.store, table, &plan, keys)?;
        Ok(done(word, &plan))
    }

    /// Answers a sequenced query. Nothing is changed.
    fn answer(
        &mut self,
        alloc: Global,
        query: &QueryTree<SelectDistinct>,
    ) -> Result<Outcome, Refusal>
        ensures step { IfRepresents S.Store self.old self.new (λ history.
            StepsTo S.Store history (statement.sequenced (plain_query query.now)) result self.new) }
        ensures queries { IfRepresents S.Store self.old self.new (λ history.
            IfErr result (MayRefuseQuery S.Store self.old self.new
            (statement.sequenced (plain_query query.now)))) }
        ensures kept { KeepsOnErr S.Store self.old self.new result }
        ensures over { StepOver S.Store self.old
            (statement.sequenced (plain_query query.now)) result self.new }
        ensures healthy { StatementLeavesHealthy S.Store self.old
            (statement.sequenced (plain_query query.now)) result self.new }
        ensures others { SparesOthers S.Store self.old.connection self.new.connection }
    {
        let query = resolve_sequenced(alloc, self.store.catalog(), query)?;
        let answer = answer_query(alloc, &mut self.tables, &query)?;
        Ok(Outcome::Answer(answer))
    }

    /// Shows the versions of a stored query. Nothing is changed.
    fn show(&mut self, alloc: Global, query: &StoredQuery) -> Result<Outcome, Refusal>
        ensures step { IfRepresents S.Store self.old self.new (λ history.
            StepsTo S.Store history (statement.stored (plain_stored query.now)) result self.new) }
        ensures queries { IfRepresents S.Store self.old self.new (λ history.
            IfErr result (MayRefuseQuery S.Store self.old self.new
            (statement.stored (plain_stored query.now)))) }
        ensures kept { KeepsOnErr S.Store self.old self.new result }
        ensures over { StepOver S.Store self.old (statement.stored (plain_stored query.now)) result
            self.new }
        ensures healthy { StatementLeavesHealthy S.Store self.old
            (statement.stored (plain_stored query.now)) result self.new }
        ensures others { SparesOthers S.Store self.old.connection self.new.connection }
    {
        let query = resolve_stored_query(alloc, self.store.catalog(), query)?;
        let Some(table) = self.store.catalog().def(query.table) else {
            unreachable!()
        };
        let columns = version_columns(alloc, table)?;
        let rows = shown_by(alloc, &mut self.tables, &query)?;
        Ok(Outcome::Versions(VersionList {
            columns,
            rows: Items::from_vec(rows),
        }))
    }

    /// Runs a statement. An `Err` changes nothing: it is the refusal of the least number whose
    /// condition holds; out of memory; or another failure of the database, only if no condition
    /// of 1 to 31 or 40 holds, and over a healthy database only if there was a fault of it.
    pub fn execute(&mut self, alloc: Global, statement: &Statement) -> Result<Outcome, Refusal>
        // Whatever history the engine represents, the call is a step of it, and the engine then
        // represents the new one. Whatever the database holds, the result is by the catalog and the
        // clock in memory. Over a healthy database with room for what the statement adds, 62 comes
        // of a fault alone, and a statement that is accepted leaves it healthy.
        ensures runs { RunsOver S.Store self.old (plain statement.now) result self.new }
        ensures kept { KeepsOnErr S.Store self.old self.new result }

        // A query is refused with 62 only if there was a fault of the database.
        ensures queries { IfRepresents S.Store self.old self.new (λ history.
            IsQuery (plain statement.now)
            → IfErr result (MayRefuseQuery S.Store self.old self.new (plain statement.now))) }
        ensures others { SparesOthers S.Store self.old.connection self.new.connection }
    {
        match statement.form() {
            StatementForm::At(moment) => self.advance(*moment),
            StatementForm::Create(create) => self.create(alloc, create.table()),
            StatementForm::Insert(insert) => {
                let resolved = resolve_insert(alloc, self.catalog(), insert);
                self.change(alloc, Word::Insert, resolved)
            }
            StatementForm::Update(update) => {
                let resolved = resolve_update(alloc, self.catalog(), update);
                self.prepare(alloc, &resolved);
                self.change(alloc, Word::Update, resolved)
            }
            StatementForm::Delete(delete) => {
                let resolved = resolve_delete(alloc, self.catalog(), delete);
                self.prepare(alloc, &resolved);
                self.change(alloc, Word::Delete, resolved)
            }
            StatementForm::Sequenced(query) => self.answer(alloc, query),
            StatementForm::Stored(query) => self.show(alloc, query),
        }
    }
}
