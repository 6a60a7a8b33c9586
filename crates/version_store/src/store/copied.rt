//! A copy of a store in another database.

ghost use Rattle.std.specs.Prelude.{◌≡◌, ◌≢◌, ◌+◌, ℕ, false, IfErr, OnOk};
ghost use Rattle.period_core.specs.declared.refusal.Refusal.TheVariants.{Store as StoreRefusal};
ghost use Rattle.sqlite.specs.Held.{state};
ghost use Rattle.version_tables.specs.Tables.{no_schema};
ghost use Rattle.version_store.specs.Contents.{Contents};
ghost use Rattle.version_store.specs.Copies.{HasCommitted, up_to};
ghost use Rattle.version_store.specs.GoodStore.{HaveTables};
ghost use Rattle.version_store.specs.StoreState.{IsOnlyRead, IsStoreRefusal, IsUsable};
ghost use Rattle.version_store.specs.StoreState.{StoreRepresents};

use crate::copying::{begin_copy, write_versions};
use crate::store::VersionStore;
use period_core::Refusal;
use sqlite::Connection;
use sqlite_trees::store::Alter;
use std::alloc::Global;

impl<S: Alter> VersionStore<S> {
    /// Adds the versions of the table of a number to a copy that has the earlier tables' versions,
    /// in their order.
    fn copy_table<T: Alter>(
        &mut self,
        alloc: Global,
        number: u8,
        copy: &mut Connection<T>,
    ) -> Result<(), Refusal>
        requires { copy.old.in_transaction ≡ false }
        ensures made { IsUsable S.Store self.new.connection → IsUsable T.Store copy.new
            → (c : Contents) → StoreRepresents S.Store self.old c
            → (before : ℕ) → number ≡ before + 1 → HasCommitted T.Store copy.old (up_to before c)
            → OnOk result (HasCommitted T.Store copy.new (up_to number c)) }
        ensures copy_usable { IsUsable T.Store copy.new → IsUsable T.Store copy.old }
        ensures mode { copy.new.in_transaction ≡ false }
        ensures same { IsUsable S.Store self.new.connection
            → (c : Contents) → StoreRepresents S.Store self.old c
            → StoreRepresents S.Store self.new c }
        ensures read { IsOnlyRead S.Store self.old self.new }
        ensures named { IfErr result IsStoreRefusal }
    {
        let rows = self.rows(alloc, number)?;
        write_versions(alloc, copy, number, rows.as_slice())?;
        Ok(())
    }

    /// Writes a copy of the store into a new database, of form 2: it has the same clock, the same
    /// definitions and the same versions, each table's by values, then period start, then
    /// system start. The store is not changed. A database that has tables, indexes or views is
    /// refused with 62. On `Err`, 61 or 62, the new database may have a part of the copy.
    pub fn copy_into<T: Alter>(
        &mut self,
        alloc: Global,
        copy: &mut Connection<T>,
    ) -> Result<(), Refusal>
        requires { copy.old.in_transaction ≡ false }
        ensures copied { IsUsable S.Store self.new.connection → IsUsable T.Store copy.new
            → (c : Contents) → HaveTables c → StoreRepresents S.Store self.old c
            → OnOk result (HasCommitted T.Store copy.new c) }
        ensures new { OnOk result ((state T.Store copy.old).now.schema ≡ no_schema) }
        ensures not_new { (state T.Store copy.old).now.schema ≢ no_schema
            → result ≡ Err StoreRefusal }
        ensures mode { copy.new.in_transaction ≡ false }
        ensures copy_usable { IsUsable T.Store copy.new → IsUsable T.Store copy.old }
        ensures same { IsUsable S.Store self.new.connection
            → (c : Contents) → StoreRepresents S.Store self.old c
            → StoreRepresents S.Store self.new c }
        ensures read { IsOnlyRead S.Store self.old self.new }
        ensures named { IfErr result IsStoreRefusal }
    {
        begin_copy(alloc, copy, &self.catalog, self.clock)?;
        for place in 0..self.catalog.len() {
            self.copy_table(alloc, place as u8 + 1, copy)?;
        }
        Ok(())
    }
}
