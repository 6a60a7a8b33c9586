//! A store that has been opened, and is not in use yet.

ghost use Rattle.std.specs.Prelude.{◌≡◌, ◌≢◌, ◌⊎◌, ◌≤◌, ℕ, [], Bool, false, IfErr, IfOk, IsOk};
ghost use Rattle.std.specs.Prelude.{IsTrue};
ghost use Rattle.period_core.specs.declared.refusal.Refusal.TheVariants.{BadStore};
ghost use Rattle.period_core.specs.Encoding.{greatest_number};
ghost use Rattle.period_core.specs.Moments.{first_moment};
ghost use Rattle.sqlite.specs.Held.{state};
ghost use Rattle.version_tables.specs.Healthy.{IsHealthy};
ghost use Rattle.version_tables.specs.Making.{HasCounters};
ghost use Rattle.version_tables.specs.Presence.{HasNoStoreTable};
ghost use Rattle.version_tables.specs.Represents.{HaveOwnRowids};
ghost use Rattle.version_tables.specs.Steps.{IsAsBefore, KeepsFaults};
ghost use Rattle.version_tables.specs.Tables.{no_schema};
ghost use Rattle.version_tables.specs.declared.form.Form.{Form as AnyForm};
ghost use Rattle.version_tables.specs.declared.form.Form.TheVariants.{Microseconds};
ghost use Rattle.version_store.specs.Contents.{AreVersionsOf, Contents, empty_contents};
ghost use Rattle.version_store.specs.GoodStore.{AreGood, AreLawful, HaveTables, IsGoodStore};
ghost use Rattle.version_store.specs.GoodStore.{NoExtraCondition};
ghost use Rattle.version_store.specs.StoreState.{IsCreatedAfter, IsFailure};
ghost use Rattle.version_store.specs.StoreState.{IsOpenRefusal, OwnTablesAreWellFormed};
ghost use Rattle.version_store.specs.StoreState.{IsStoreRefusal, IsUsable, OpenedRepresents};
ghost use Rattle.version_store.specs.StoreState.{SparesOthers, StoreRepresents};
ghost use Rattle.version_store.specs.Units.{in_microseconds};
ghost use Rattle.version_store.specs.Written.{HasIn, IsMovable};

use crate::inspection::inspect;
use crate::store::VersionStore;
use crate::transactions::write_move;
use catalog_core::Catalog;
use period_core::{Items, Moment, Refusal, VersionRow};
use sqlite::Connection;
use sqlite_trees::store::Alter;
use std::alloc::Global;
use std::marker::Model;
use version_tables::{Form, Presence, tables_there};

/// A store as `VersionStore::open` gives it. Its definitions, its clock and each of its versions
/// are a good store's. Whether its current rows keep the keys and references of their tables
/// is still to be judged, by whoever knows these; so it cannot be changed. `accept` gives the store
/// for use, `refuse` gives the connection back. A database of form 1 is read in microseconds, and
/// stays of form 1 until it is accepted.
#[derive(Drop)]
pub struct OpenedStore<S: Alter> {
    store: VersionStore<S>,
    form: Form,
}

impl<S: Alter> Model for OpenedStore<S> {
    ghost use Rattle.version_store.specs.StoreState.{OpenedState, opened_state_code};

    ghost Value = { OpenedState S };

    ghost coded = { opened_state_code S.code };

    ghost view = { λ opened. record { store = opened.store; form = opened.form } };
}

impl<S: Alter> OpenedStore<S> {
    /// The tables.
    pub fn catalog(&self) -> &Catalog
        ensures { result.now ≡ self.now.store.catalog }
    {
        self.store.catalog()
    }

    /// The clock.
    pub fn clock(&self) -> Moment
        ensures { result ≡ self.now.store.clock }
    {
        self.store.clock()
    }

    /// The store, for use: its keys and references were found to hold. With what these ask of the
    /// contents, by whichever test, the store meets all six points. A database of form 1 is moved
    /// to form 2, in one transaction; one of form 2 is not written. On `Err`, 61 or 62, the
    /// database is as it was opened, the connection is returned, and no transaction is open on it.
    /// If it is healthy, with short versions, it is refused for memory or a fault alone.
    pub fn accept(self) -> Result<VersionStore<S>, (Refusal, Connection<S>)>
        ensures accepted { IfOk result (λ store. IsUsable S.Store store.connection
            → (c : Contents) → OpenedRepresents S.Store self c → StoreRepresents S.Store store c) }
        ensures good { IfOk result (λ store. IsUsable S.Store store.connection
            → (test : Contents → Bool) (c : Contents) → OpenedRepresents S.Store self c
            → AreGood (λ d. IsTrue (test d)) c
            → IsGoodStore (λ d. IsTrue (test d)) (state S.Store store.connection).now) }
        ensures kept { IfOk result (λ store. (store.catalog ≡ self.store.catalog)
            × (store.clock ≡ self.store.clock)) }
        ensures others { IfOk result (λ store.
            SparesOthers S.Store self.store.connection store.connection) }
        ensures usable { IfOk result (λ store. IsUsable S.Store store.connection
            → IsUsable S.Store self.store.connection) }
        ensures unwritten { self.form ≡ Microseconds
            → IsOk result × IfOk result (λ store. store ≡ self.store) }
        ensures healthy { IfOk result (λ store. IsUsable S.Store store.connection
            → (c : Contents) → OpenedRepresents S.Store self c
            → (left : ℕ) → IsHealthy left (state S.Store self.store.connection).now
            → IsHealthy left (state S.Store store.connection).now) }
        ensures why { IfErr result (λ failed. IsUsable S.Store failed.1
            → (c : Contents) → OpenedRepresents S.Store self c
            → IsMovable (state S.Store self.store.connection).now c
            → IsFailure S.Store self.store.connection failed.1 failed.0) }
        ensures none { IfErr result (λ failed. IsUsable S.Store failed.1
            → IsAsBefore (state S.Store self.store.connection) (state S.Store failed.1)) }
        ensures was_usable { IfErr result (λ failed. IsUsable S.Store failed.1
            → IsUsable S.Store self.store.connection) }
        ensures settled { IfErr result (λ failed. failed.1.in_transaction ≡ false) }
        ensures named { IfErr result (λ failed. IsStoreRefusal failed.0) }
    {
        let OpenedStore { mut store, form } = self;
        match form {
            Form::Microseconds => {
                // For the proof alone: while a connection is open, no two rows share a key.
                let _live = store.connection.schema();
                Ok(store)
            }
            Form::Seconds => match write_move(&mut store.connection, store.clock) {
                Ok(()) => {
                    let _live = store.connection.schema();
                    Ok(store)
                }
                Err(fault) => Err((Refusal::from(fault), store.close())),
            },
        }
    }

    /// The connection, returned: no transaction is open on it, and the database is as it was
    /// opened.
    pub fn refuse(self) -> Connection<S>
        ensures same { result ≡ self.store.connection }
        ensures settled { result.in_transaction ≡ false }
    {
        self.store.close()
    }
}

impl<S: Alter> VersionStore<S> {
    /// Opens a store, which is then still to be accepted. In a database that has none of the three
    /// tables they are made, as by `create`, after all other tables. If all three
    /// exist, the store is opened exactly if it is a good one but for its keys and references; what
    /// it holds is then as it was closed, of form 1 in microseconds. Tables, indexes and views that
    /// follow the three do not count. If the three are not as the store makes them,
    /// or follow other tables, the contract says only that a refusal changes nothing. Beside
    /// the store are the version rows of each table, each list in any order: they are read as the
    /// store is judged, and so once. On `Err` nothing is changed, the connection is returned, and
    /// no transaction is open on it.
    pub fn open(
        alloc: Global,
        mut connection: Connection<S>,
    ) -> Result<(OpenedStore<S>, Vec<Items<VersionRow>>), (Refusal, Connection<S>)>
        requires { connection.in_transaction ≡ false }
        ensures fresh { IfOk result (λ found. IsUsable S.Store found.0.store.connection
            → (state S.Store connection).now.schema ≡ no_schema
            → OpenedRepresents S.Store found.0 empty_contents × (found.1.items ≡ [])) }
        ensures beside { IfOk result (λ found. IsUsable S.Store found.0.store.connection
            → HasNoStoreTable (state S.Store connection).now.schema
            → HasCounters (state S.Store connection).now.schema
            → IsCreatedAfter (state S.Store connection)
            (state S.Store found.0.store.connection)) }
        ensures healthy { IfOk result (λ found. IsUsable S.Store found.0.store.connection
            → (state S.Store connection).now.schema ≡ no_schema
            → (count : ℕ) → count ≤ greatest_number
            → IsHealthy count (state S.Store found.0.store.connection).now) }
        ensures good { IfOk result (λ found. IsUsable S.Store found.0.store.connection
            → OwnTablesAreWellFormed (state S.Store connection).now.schema
            → HasNoStoreTable (state S.Store connection).now.schema
            ⊎ ((good : IsGoodStore NoExtraCondition (state S.Store connection).now)
            × (good.form ≡ found.0.form)
            × OpenedRepresents S.Store found.0 (in_microseconds good.form good.contents)
            × AreVersionsOf (in_microseconds good.form good.contents) found.1.items)) }
        ensures same { IfOk result (λ found. IsUsable S.Store found.0.store.connection
            → (form : AnyForm) (c : Contents) → HasIn form (state S.Store connection).now c
            → OpenedRepresents S.Store found.0 (in_microseconds form c)) }
        ensures versions { IfOk result (λ found. IsUsable S.Store found.0.store.connection
            → (form : AnyForm) (c : Contents) → HasIn form (state S.Store connection).now c
            → AreVersionsOf (in_microseconds form c) found.1.items) }
        ensures tabled { IfOk result (λ found. IsUsable S.Store found.0.store.connection
            → (form : AnyForm) (c : Contents) → HasIn form (state S.Store connection).now c
            → HaveTables (in_microseconds form c)) }
        ensures unchanged { IfOk result (λ found. IsUsable S.Store found.0.store.connection
            → HasNoStoreTable (state S.Store connection).now.schema
            ⊎ IsAsBefore (state S.Store connection) (state S.Store found.0.store.connection)) }
        ensures others { IfOk result (λ found.
            SparesOthers S.Store connection found.0.store.connection) }
        ensures empty { IfOk result (λ found. HasNoStoreTable (state S.Store connection).now.schema
            → (found.0.store.catalog.tables ≡ []) × (found.0.store.clock ≡ first_moment)
            × (found.0.form ≡ Microseconds)) }
        ensures usable { IfOk result (λ found. IsUsable S.Store found.0.store.connection
            → IsUsable S.Store connection) }
        ensures faults { IfOk result (λ found.
            KeepsFaults (state S.Store connection) (state S.Store found.0.store.connection)) }
        ensures lawful { IfOk result (λ found. AreLawful [] found.0.store.catalog.tables) }
        ensures bad { IfErr result (λ failed. IsUsable S.Store failed.1 → failed.0 ≡ BadStore
            → (¬ HasNoStoreTable (state S.Store connection).now.schema)
            × ¬ IsGoodStore NoExtraCondition (state S.Store connection).now) }
        ensures why { IfErr result (λ failed. IsUsable S.Store failed.1
            → IsGoodStore NoExtraCondition (state S.Store connection).now
            → HaveOwnRowids ((state S.Store connection).now.trees 2)
            → IsFailure S.Store connection failed.1 failed.0) }
        ensures why_new { IfErr result (λ failed. IsUsable S.Store failed.1
            → (state S.Store connection).now.schema ≡ no_schema
            → IsFailure S.Store connection failed.1 failed.0) }
        ensures none { IfErr result (λ failed. IsUsable S.Store failed.1
            → IsAsBefore (state S.Store connection) (state S.Store failed.1)) }
        ensures was_usable { IfErr result (λ failed. IsUsable S.Store failed.1
            → IsUsable S.Store connection) }
        ensures settled { IfErr result (λ failed. failed.1.in_transaction ≡ false) }
        ensures named { IfErr result (λ failed. IsOpenRefusal failed.0) }
    {
        // For the proof alone: whether a transaction is open is known by this call.
        let _settled = connection.is_autocommit();
        match tables_there(&connection) {
            Presence::Missing => match VersionStore::create(alloc, connection) {
                Ok(store) => {
                    let form = Form::Microseconds;
                    Ok((OpenedStore { store, form }, Vec::new(alloc)))
                }
                Err(failed) => Err(failed),
            },
            Presence::Partial => Err((Refusal::BadStore, connection)),
            Presence::Whole => match inspect(alloc, &mut connection) {
                Ok((catalog, form, number, versions)) => match form.moment(number) {
                    Some(clock) => {
                        let store = VersionStore {
                            connection,
                            catalog,
                            clock,
                        };
                        Ok((OpenedStore { store, form }, versions))
                    }
                    None => Err((Refusal::BadStore, connection)),
                },
                Err(fault) => Err((Refusal::from(fault), connection)),
            },
        }
    }

    /// Closes the store and opens it again, with the same tables, clock and versions. A store whose
    /// contents are good is not refused as a bad one, and for nothing but memory and faults of its
    /// database. On `Err`, 60, 61 or 62, nothing is changed, the connection is returned, and no
    /// transaction is open on it.
    pub fn reopen(
        self,
        alloc: Global,
    ) -> Result<(OpenedStore<S>, Vec<Items<VersionRow>>), (Refusal, Connection<S>)>
        ensures same { IfOk result (λ found. IsUsable S.Store found.0.store.connection
            → (c : Contents) → StoreRepresents S.Store self c
            → OpenedRepresents S.Store found.0 c) }
        ensures versions { IfOk result (λ found. IsUsable S.Store found.0.store.connection
            → (c : Contents) → StoreRepresents S.Store self c
            → AreVersionsOf c found.1.items) }
        ensures kept { IfErr result (λ failed. IsUsable S.Store failed.1
            → (c : Contents) → StoreRepresents S.Store self c → AreGood NoExtraCondition c
            → (failed.0 ≢ BadStore)
            × IsFailure S.Store self.connection failed.1 failed.0) }
        ensures none { IfErr result (λ failed. IsUsable S.Store failed.1
            → IsAsBefore (state S.Store self.connection) (state S.Store failed.1)) }
        ensures settled { IfErr result (λ failed. failed.1.in_transaction ≡ false) }
        ensures named { IfErr result (λ failed. IsOpenRefusal failed.0) }
    {
        let connection = self.close();
        // For the proof alone: while a connection is open, no two rows share a key.
        let _live = connection.schema();
        VersionStore::open(alloc, connection)
    }
}
