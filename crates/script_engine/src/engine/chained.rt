//! Ended versions, chained by their values at some positions before those that have given values
//! there are read. Chaining is lazy: a change never pays for it.

ghost use Rattle.std.specs.Prelude.{◌≡◌, List, OnOk, map};
ghost use Rattle.ended_versions.specs.Packed.{Hold};
ghost use Rattle.period_core.specs.declared.version.VersionRow.{VersionRow as Version};
ghost use Rattle.period_keys.specs.Current.{rows_by_key};
ghost use Rattle.script_engine.specs.engine.Ended.{ended_in};
ghost use Rattle.script_engine.specs.engine.Reading.{AddRead, MayBeUnread, versions_in};

use crate::engine::in_memory::TablesInMemory;
use crate::engine::reading::{Access, Selection, read};
use catalog_core::of_number_mut;
use period_core::Memory;
use std::alloc::Global;

impl TablesInMemory {
    /// Chains the versions of the table of a number that have ended, by their values at these
    /// positions. Which they are stays the same.
    fn chain(&mut self, alloc: Global, number: u8, positions: &[usize]) -> Result<(), Memory>
        ensures { self.new ≡ self.old }
    {
        let Some(list) = of_number_mut(&mut self.ended, number) else {
            return Ok(());
        };
        list.chain(alloc, positions)
    }
}

/// Adds the rows of the versions that an access leaves and a selection takes, of those in memory.
/// If it is to ended versions that have given values at some positions, those of the table are
/// chained by their values there first: they stay the same.
pub fn read_chained<S: Selection>(
    alloc: Global,
    tables: &mut TablesInMemory,
    access: &Access,
    selection: &S,
    rows: &mut Vec<S::Row>,
) -> Result<(), Memory>
    ensures read { (versions : List Version)
        → Hold (ended_in tables.old.ended access.now.table) versions
        → OnOk result (AddRead (S.IsTaken selection.now)
        (MayBeUnread access.now (S.MayLack selection.now)) S.made
        (versions_in (map rows_by_key tables.old.current) access.now.table versions)
        rows.old.items rows.new.items) }
    ensures same { tables.new ≡ tables.old }
{
    if let Some(fixed) = access.ended_values() {
        tables.chain(alloc, access.table, fixed.positions)?;
    }
    read(alloc, tables, access, selection, rows)
}
