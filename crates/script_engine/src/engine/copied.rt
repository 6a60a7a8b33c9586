//! A copy of the engine's store in another database.

ghost use Rattle.std.specs.Prelude.{◌≡◌, ◌≢◌, false, IfErr, OnOk};
ghost use Rattle.period_core.specs.declared.refusal.Refusal.TheVariants.{Store as StoreRefusal};
ghost use Rattle.sqlite.specs.Held.{state};
ghost use Rattle.version_tables.specs.Tables.{no_schema};
ghost use Rattle.version_store.specs.StoreState.{IsStoreRefusal, IsUsable, SparesOthers};
ghost use Rattle.history_model.specs.Histories.{History};
ghost use Rattle.script_engine.specs.engine.Copies.{Holds};
ghost use Rattle.script_engine.specs.engine.InMemory.{IsSameInMemory};
ghost use Rattle.script_engine.specs.engine.Stored.{EngineRepresents, IfRepresents, WasUsable};

use crate::engine::Engine;
use period_core::Refusal;
use sqlite::Connection;
use sqlite_trees::store::Alter;
use std::alloc::Global;

impl<S: Alter> Engine<S> {
    /// Writes a copy of the store into a new database, of form 2: it represents the same history.
    /// The versions of each table are written by values, then period start, then system start,
    /// which fills the pages of their index. The engine and its store are not changed. A database
    /// that has tables, indexes or views is refused with 62. On `Err`, 61 or 62, the new database
    /// may have a part of the copy.
    pub fn copy_into<T: Alter>(
        &mut self,
        alloc: Global,
        copy: &mut Connection<T>,
    ) -> Result<(), Refusal>
        requires { copy.old.in_transaction ≡ false }
        ensures copied { IsUsable S.Store self.new.connection → IsUsable T.Store copy.new
            → (history : History) → EngineRepresents S.Store history self.old
            → OnOk result (Holds T.Store history copy.new) }
        ensures new { OnOk result ((state T.Store copy.old).now.schema ≡ no_schema) }
        ensures not_new { (state T.Store copy.old).now.schema ≢ no_schema
            → result ≡ Err StoreRefusal }
        ensures mode { copy.new.in_transaction ≡ false }
        ensures copy_usable { WasUsable T.Store copy.old copy.new }
        ensures same { IfRepresents S.Store self.old self.new (λ history.
            EngineRepresents S.Store history self.new) }
        ensures memory { IsSameInMemory self.old self.new }
        ensures usable { WasUsable S.Store self.old.connection self.new.connection }
        ensures others { SparesOthers S.Store self.old.connection self.new.connection }
        ensures named { IfErr result IsStoreRefusal }
    {
        self.store.copy_into(alloc, copy)
    }
}
