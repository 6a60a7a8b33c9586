//! The tables in memory: the current versions of each, and those that have ended.

ghost use Rattle.std.specs.Prelude.{◌≡◌, ◌++◌, ◌∷◌, [], List, MatchOption, None, OnErr, OnOk};
ghost use Rattle.std.specs.Prelude.{Some, map};
ghost use Rattle.catalog_core.specs.create.Lawful.{IsLawful};
ghost use Rattle.catalog_core.specs.declared.table.TableDef.{TableDef as Definition};
ghost use Rattle.catalog_core.specs.table.TableWords.{table_of};
ghost use Rattle.ended_versions.specs.Packed.{PackedVersion};
ghost use Rattle.period_keys.specs.Current.{rows_by_key};
ghost use Rattle.period_keys.specs.Lawful.{key_positions};
ghost use Rattle.period_keys.specs.Rows.{RowsByKey};
ghost use Rattle.script_engine.specs.engine.InMemory.{FollowCatalog};
ghost use Rattle.script_engine.specs.engine.Reading.{positions_in};

use catalog_core::{Catalog, TableDef, of_number};
use ended_versions::EndedVersions;
use period_core::Memory;
use period_keys::{TableIndex, add_table};
use std::alloc::Global;
use std::marker::Model;

/// The tables of a catalog, in its order: the current versions of each, with the indexes that its
/// references need, and those that have ended. The current ones are a list of their own, since a
/// change is judged over those of several tables (`reference_fault`).
#[derive(Drop)]
pub struct TablesInMemory {
    pub(super) current: Vec<TableIndex>,
    pub(super) ended: Vec<EndedVersions>,
}

impl Model for TablesInMemory {
    ghost use Rattle.std.specs.Prelude.{◌≡◌, length};
    ghost use Rattle.script_engine.specs.engine.TablesState.{TablesState};

    ghost Value = { TablesState };

    ghost view = { λ t. record { current = t.current.items; ended = t.ended.items } };

    ghost invariant = { λ t. length t.ended.items ≡ length t.current.items };
}

/// The versions of one table.
#[derive(Clone, Copy)]
pub struct VersionTable<'a> {
    /// The current versions.
    pub current: &'a TableIndex,
    /// The versions that have ended.
    pub ended: &'a EndedVersions,
}

impl TablesInMemory {
    /// The current versions of each table.
    pub fn current(&self) -> &[TableIndex]
        ensures { result.now ≡ self.now.current }
    {
        self.current.as_slice()
    }

    /// The versions of the table of a number.
    pub fn table(&self, number: u8) -> Option<VersionTable<'_>>
        ensures current { MatchOption result (table_of self.now.current number ≡ None)
            (λ table. table_of self.now.current number ≡ Some table.current.now) }
        ensures ended { MatchOption result (table_of self.now.ended number ≡ None)
            (λ table. table_of self.now.ended number ≡ Some table.ended.now) }
    {
        Some(VersionTable {
            current: of_number(self.current.as_slice(), number)?,
            ended: of_number(self.ended.as_slice(), number)?,
        })
    }

    /// The positions of the key among the values of a row of the table of a number. If no table has
    /// it, none.
    pub fn key_positions(&self, number: u8) -> &[usize]
        ensures { result.now ≡ positions_in (map rows_by_key self.now.current) number }
    {
        match of_number(self.current.as_slice(), number) {
            Some(table) => table.rows().positions(),
            None => &[],
        }
    }

    /// Adds a table without versions, of a definition that the catalog does not have yet, with the
    /// indexes that its references need. On an error no table is added, and those that exist have
    /// the same versions.
    pub fn add(
        &mut self,
        alloc: Global,
        catalog: &Catalog,
        definition: &TableDef,
    ) -> Result<(), Memory>
        requires follow { FollowCatalog catalog.now.tables self.old.current }
        requires lawful { IsLawful catalog.now.tables definition.now }
        ensures rows { OnOk result (map rows_by_key self.new.current
            ≡ map rows_by_key self.old.current
            ++ record { positions = key_positions definition.now; rows = [] } ∷ []) }
        ensures follow { OnOk result
            (FollowCatalog (catalog.now.tables ++ definition.now ∷ []) self.new.current) }
        ensures none { OnErr result
            ((map rows_by_key self.new.current ≡ map rows_by_key self.old.current)
            × FollowCatalog catalog.now.tables self.new.current) }
        ensures appended { OnOk result (self.new.ended ≡ self.old.ended ++ [] ∷ []) }
        ensures unchanged { OnErr result (self.new.ended ≡ self.old.ended) }
    {
        let count = self.ended.len();
        self.ended.push(EndedVersions::new(alloc))?;
        match add_table(alloc, catalog, &mut self.current, definition) {
            Ok(()) => Ok(()),
            Err(refused) => {
                self.ended.truncate(count);
                Err(refused)
            }
        }
    }

    /// Removes the last table.
    pub fn remove_last(&mut self)
        ensures rows { (rows : List RowsByKey) (last : RowsByKey)
            → map rows_by_key self.old.current ≡ rows ++ last ∷ []
            → map rows_by_key self.new.current ≡ rows }
        ensures follow { (catalog : List Definition) (last : Definition)
            → FollowCatalog (catalog ++ last ∷ []) self.old.current
            → FollowCatalog catalog self.new.current }
        ensures ended { (lists : List (List PackedVersion)) (last : List PackedVersion)
            → self.old.ended ≡ lists ++ last ∷ [] → self.new.ended ≡ lists }
    {
        let _table = self.current.pop();
        let _ended = self.ended.pop();
    }
}
