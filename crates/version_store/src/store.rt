//! The store: its definitions and its clock in memory, over a connection.

ghost use Rattle.std.specs.Prelude.{◌≡◌, ◌⊎◌, ◌<◌, ◌≤◌, ◌<ℤ◌, ◌≤ℤ◌, ◌++◌, ◌∷◌, [], ℕ, List};
ghost use Rattle.std.specs.Prelude.{IfErr, IfOk, IsOk, None, OnErr, OnOk, false, length};
ghost use Rattle.std.specs.Prelude.{true};
ghost use Rattle.catalog_core.specs.Limits.{most_tables};
ghost use Rattle.catalog_core.specs.table.TableWords.{has_date_period, has_distinct_names};
ghost use Rattle.catalog_core.specs.declared.table.TableDef.{TableDef};
ghost use Rattle.period_core.specs.Encoding.{greatest_number};
ghost use Rattle.period_core.specs.Moments.{first_moment, forever};
ghost use Rattle.sqlite.specs.Held.{state};
ghost use Rattle.version_tables.specs.Healthy.{IsHealthy, IsShort};
ghost use Rattle.version_tables.specs.Making.{HasCounters};
ghost use Rattle.version_tables.specs.Presence.{HasNoStoreTable};
ghost use Rattle.version_tables.specs.Steps.{IsAsBefore, KeepsFaults};
ghost use Rattle.version_tables.specs.Tables.{no_schema};
ghost use Rattle.version_store.specs.Changed.{CanMake, planned, with_clock, with_table};
ghost use Rattle.version_store.specs.Contents.{AreRowsOf, Contents, empty_contents};
ghost use Rattle.version_store.specs.DistinctKeys.{HaveDistinctKeys};
ghost use Rattle.version_store.specs.Scans.{AnswersRefusal, IsOwnRefusal, Visits, is_empty};
ghost use Rattle.version_store.specs.StoreState.{Changes, FailsForReason, IsFailure};
ghost use Rattle.version_store.specs.StoreState.{IsCreatedAfter, IsOnlyRead, LeavesHealthy};
ghost use Rattle.version_store.specs.StoreState.{IsStoreRefusal, IsUsable, SparesOthers};
ghost use Rattle.version_store.specs.StoreState.{StaysOnErr, StoreRepresents};
ghost use Rattle.version_store.specs.Written.{written_table};

use crate::fault::refusal_of;
use crate::scans::{scan_rows, table_rows};
use crate::transactions::{write_clock, write_plan, write_table};
use crate::visitor::RowVisitor;
use catalog_core::{Catalog, Plan, TableDef, encode_def};
use period_core::{Items, Moment, Refusal, VersionRow, Window};
use sqlite::Connection;
use sqlite_trees::store::Alter;
use std::alloc::Global;
use std::marker::Model;
use std::mem;
use version_tables::{Form, create};

pub mod copied;
pub mod opened;

/// The tables' definitions, the clock and the version rows in a database. The definitions and the
/// clock are in memory too. No transaction is open on its connection.
#[derive(Drop)]
pub struct VersionStore<S: Alter> {
    connection: Connection<S>,
    catalog: Catalog,
    clock: Moment,
}

impl<S: Alter> Model for VersionStore<S> {
    ghost use Rattle.std.specs.Prelude.{◌≡◌, false};
    ghost use Rattle.version_store.specs.StoreState.{StoreState, store_state_code};

    ghost Value = { StoreState S };

    ghost coded = { store_state_code S.code };

    ghost view = { λ s.
        record { connection = s.connection; catalog = s.catalog; clock = s.clock } };

    ghost invariant = { λ s. s.connection.in_transaction ≡ false };
}

/// Removes the last table of a catalog.
fn take_last(alloc: Global, catalog: &mut Catalog)
    ensures { (tables : List TableDef) (last : TableDef)
        → catalog.old.tables ≡ tables ++ last ∷ [] → catalog.new.tables ≡ tables }
{
    let mut tables = mem::replace(&mut catalog.tables, Items::empty(alloc)).into_vec();
    let _last = tables.pop();
    catalog.tables = Items::from_vec(tables);
}

impl<S: Alter> VersionStore<S> {
    /// Makes the store's tables in a database that has none of them, in one transaction: a store
    /// without tables, whose clock is the first moment. They follow all other tables, which are
    /// left as they are; if there are none, the database is healthy, with room for as many
    /// versions as there are numbers, and they are refused for memory or a fault alone. On `Err`
    /// nothing is changed, the connection is returned, and no transaction is open on it.
    pub fn create(
        alloc: Global,
        mut connection: Connection<S>,
    ) -> Result<VersionStore<S>, (Refusal, Connection<S>)>
        requires { connection.in_transaction ≡ false }
        ensures fresh { IfOk result (λ store. IsUsable S.Store store.connection
            → (state S.Store connection).now.schema ≡ no_schema
            → StoreRepresents S.Store store empty_contents) }
        ensures beside { IfOk result (λ store. IsUsable S.Store store.connection
            → HasNoStoreTable (state S.Store connection).now.schema
            → HasCounters (state S.Store connection).now.schema
            → IsCreatedAfter (state S.Store connection) (state S.Store store.connection)) }
        ensures healthy { IfOk result (λ store. IsUsable S.Store store.connection
            → (state S.Store connection).now.schema ≡ no_schema
            → (count : ℕ) → count ≤ greatest_number
            → IsHealthy count (state S.Store store.connection).now) }
        ensures empty { IfOk result
            (λ store. (store.catalog.tables ≡ []) × (store.clock ≡ first_moment)) }
        ensures usable { IfOk result (λ store. IsUsable S.Store store.connection
            → IsUsable S.Store connection) }
        ensures faults { IfOk result (λ store.
            KeepsFaults (state S.Store connection) (state S.Store store.connection)) }
        ensures why { IfErr result (λ failed. IsUsable S.Store failed.1
            → (state S.Store connection).now.schema ≡ no_schema
            → IsFailure S.Store connection failed.1 failed.0) }
        ensures none { IfErr result (λ failed. IsUsable S.Store failed.1
            → IsAsBefore (state S.Store connection) (state S.Store failed.1)) }
        ensures was_usable { IfErr result (λ failed. IsUsable S.Store failed.1
            → IsUsable S.Store connection) }
        ensures settled { IfErr result (λ failed. failed.1.in_transaction ≡ false) }
        ensures named { IfErr result (λ failed. IsStoreRefusal failed.0) }
    {
        let form = Form::Microseconds.number();
        match create(&mut connection, form, Moment::first().number()) {
            Ok(()) => {
                // For the proof alone: while a connection is open, its database obeys its schema.
                let _live = connection.schema();
                Ok(VersionStore {
                    connection,
                    catalog: Catalog::new(alloc),
                    clock: Moment::first(),
                })
            }
            Err(error) => Err((refusal_of(&error), connection)),
        }
    }

    /// The connection, on which no transaction is open.
    pub fn close(self) -> Connection<S>
        ensures same { result ≡ self.connection }
        ensures settled { result.in_transaction ≡ false }
    {
        let VersionStore {
            connection,
            catalog: _,
            clock: _,
        } = self;
        connection
    }

    /// The tables.
    pub fn catalog(&self) -> &Catalog
        ensures { result.now ≡ self.now.catalog }
    {
        &self.catalog
    }

    /// The clock: the moment of the last change, or of its last advance.
    pub fn clock(&self) -> Moment
        ensures { result ≡ self.now.clock }
    {
        self.clock
    }

    /// Adds a table to fewer than 64; its number is then the number of tables. Its application
    /// period is over two different DATE columns, and no two of its columns share a name. On `Err`
    /// nothing is changed. Over a healthy database a definition of few bytes is refused for memory
    /// or a fault alone.
    pub fn add_table(&mut self, alloc: Global, definition: TableDef) -> Result<(), Refusal>
        requires room { length self.old.catalog.tables < most_tables }
        requires dated { has_date_period definition ≡ true }
        requires distinct { has_distinct_names definition ≡ true }
        ensures changes { Changes S.Store self.old self.new result (with_table definition) }
        ensures added { OnOk result
            (self.new.catalog.tables ≡ self.old.catalog.tables ++ definition ∷ []) }
        ensures none { OnErr result (self.new.catalog.tables ≡ self.old.catalog.tables) }
        ensures clock { self.new.clock ≡ self.old.clock }
        ensures none_stored { StaysOnErr S.Store self.old.connection self.new.connection result }
        ensures others { SparesOthers S.Store self.old.connection self.new.connection }
        ensures usable { IsUsable S.Store self.new.connection
            → IsUsable S.Store self.old.connection }
        ensures named { IfErr result IsStoreRefusal }
        ensures why { FailsForReason S.Store self.old self.new result 0
            (λ _. IsShort (written_table definition)) }
        ensures healthy { LeavesHealthy S.Store self.old self.new result 0 }
    {
        let bytes = encode_def(alloc, &definition)?;
        let number = self.catalog.len() as u32 + 1;
        self.catalog.push(definition)?;
        match write_table(&mut self.connection, number, bytes.as_slice()) {
            Ok(()) => Ok(()),
            Err(fault) => {
                take_last(alloc, &mut self.catalog);
                Err(Refusal::from(fault))
            }
        }
    }

    /// Sets the clock to a moment that is not before it, and before FOREVER. On `Err` nothing is
    /// changed. Over a healthy database a moment is refused for memory or a fault alone.
    pub fn advance(&mut self, moment: Moment) -> Result<(), Refusal>
        requires later { self.old.clock ≤ℤ moment }
        requires before_the_end { moment <ℤ forever }
        ensures changes { Changes S.Store self.old self.new result (with_clock moment) }
        ensures catalog { self.new.catalog ≡ self.old.catalog }
        ensures advanced { OnOk result (self.new.clock ≡ moment) }
        ensures clock { OnErr result (self.new.clock ≡ self.old.clock) }
        ensures none_stored { StaysOnErr S.Store self.old.connection self.new.connection result }
        ensures others { SparesOthers S.Store self.old.connection self.new.connection }
        ensures usable { IsUsable S.Store self.new.connection
            → IsUsable S.Store self.old.connection }
        ensures named { IfErr result IsStoreRefusal }
        ensures why { FailsForReason S.Store self.old self.new result 0 (λ _. Unit {0}) }
        ensures healthy { LeavesHealthy S.Store self.old self.new result 0 }
    {
        write_clock(&mut self.connection, moment)?;
        self.clock = moment;
        Ok(())
    }

    /// Makes what a plan says of the table of a number at a moment: its ended rows are closed then,
    /// or removed if they began then, and its added rows are recorded from then on. On `Err`
    /// nothing is changed. If the connection is usable as the call ends it was so before, and
    /// then no two versions had one key. Over a healthy database, with room for the added rows, a
    /// plan of short rows, after which no two versions have one key, is refused for memory or a
    /// fault alone.
    pub fn apply(
        &mut self,
        alloc: Global,
        table: u8,
        moment: Moment,
        plan: &Plan,
    ) -> Result<(), Refusal>
        ensures changes { Changes S.Store self.old self.new result
            (planned table moment plan.now.ended plan.now.added) }
        ensures catalog { self.new.catalog ≡ self.old.catalog }
        ensures clock { self.new.clock ≡ self.old.clock }
        ensures none_stored { StaysOnErr S.Store self.old.connection self.new.connection result }
        ensures others { SparesOthers S.Store self.old.connection self.new.connection }
        ensures usable { IsUsable S.Store self.new.connection
            → IsUsable S.Store self.old.connection }
        ensures distinct { IsUsable S.Store self.new.connection
            → (c : Contents) → StoreRepresents S.Store self.old c → HaveDistinctKeys c.versions }
        ensures named { IfErr result IsStoreRefusal }
        ensures why { FailsForReason S.Store self.old self.new result (length plan.now.added)
            (CanMake table moment plan.now.ended plan.now.added) }
        ensures healthy { LeavesHealthy S.Store self.old self.new result
            (length plan.now.added) }
    {
        // For the proof alone: while a connection is open, no two rows share a key.
        let _live = self.connection.schema();
        write_plan(alloc, &mut self.connection, table, moment, plan)?;
        Ok(())
    }

    /// The version rows of the table of a number, by values, then period start, then system start.
    /// Nothing is changed. A store is read whole, but for memory and faults of its database.
    pub fn rows(&mut self, alloc: Global, table: u8) -> Result<Vec<VersionRow>, Refusal>
        ensures rows { IsUsable S.Store self.new.connection
            → (c : Contents) → StoreRepresents S.Store self.old c
            → IfOk result (λ rows. AreRowsOf c table rows.items) }
        ensures why { IsUsable S.Store self.new.connection
            → (c : Contents) → StoreRepresents S.Store self.old c
            → IfErr result (IsFailure S.Store self.old.connection self.new.connection) }
        ensures same { IsUsable S.Store self.new.connection
            → (c : Contents) → StoreRepresents S.Store self.old c
            → StoreRepresents S.Store self.new c }
        ensures read { IsOnlyRead S.Store self.old self.new }
        ensures named { IfErr result IsStoreRefusal }
    {
        table_rows(alloc, Form::Microseconds, &mut self.connection, table)
    }

    /// Passes the version rows of the table of a number that the window sees to the visitor, one at
    /// a time: by values, then period start, then system start. The visitor has refused no row
    /// before. Its refusal ends the scan and is answered; any other is out of memory, or caused by
    /// a fault of the database. On `Err` the visitor has received some of the first rows. Nothing
    /// is changed. If the window is empty, no row is passed, and the database is not called.
    pub fn scan<V: RowVisitor>(
        &mut self,
        alloc: Global,
        table: u8,
        window: Window,
        visitor: &mut V,
    ) -> Result<(), Refusal>
        requires { V.answered visitor.old None }
        ensures visited { IsUsable S.Store self.new.connection
            → (c : Contents) → StoreRepresents S.Store self.old c
            → Visits V.next c table window (V.meaning visitor.old) (V.meaning visitor.new) result }
        ensures why { IsUsable S.Store self.new.connection
            → (c : Contents) → StoreRepresents S.Store self.old c
            → IfErr result (λ refusal. IsOwnRefusal V.may_refuse (V.answered visitor.new) refusal
            ⊎ IsFailure S.Store self.old.connection self.new.connection refusal) }
        ensures same { IsUsable S.Store self.new.connection
            → (c : Contents) → StoreRepresents S.Store self.old c
            → StoreRepresents S.Store self.new c }
        ensures read { IsOnlyRead S.Store self.old self.new }
        ensures empty { is_empty window ≡ true → IsOk result × (self.new ≡ self.old)
            × (V.meaning visitor.new ≡ V.meaning visitor.old) }
        ensures answered { AnswersRefusal (V.answered visitor.new) result }
        ensures named { IfErr result (λ refusal. IsStoreRefusal refusal ⊎ V.may_refuse refusal) }
    {
        scan_rows(alloc, &mut self.connection, table, window, visitor)
    }
}
