//! Versions read from memory: of a table's current versions the ones whose values at some positions
//! are in a range, and of those that have ended the ones that a window sees. A selection takes
//! some, and makes a row of each.

ghost use Rattle.std.specs.Prelude.{◌≡◌, IfOk, IfSome, List, OnOk, false, length, map, reverse};
ghost use Rattle.std.specs.Prelude.{true};
ghost use Rattle.ended_versions.specs.Packed.{Hold};
ghost use Rattle.period_core.specs.declared.version.VersionRow.{VersionRow as Version};
ghost use Rattle.period_keys.specs.Current.{rows_by_key};
ghost use Rattle.period_keys.specs.Versions.{has_key_in, version_key};
ghost use Rattle.script_engine.specs.engine.Ended.{ended_in};
ghost use Rattle.script_engine.specs.engine.Reading.{AddRead, AreTaken, IsSeen, MayBeUnread};
ghost use Rattle.script_engine.specs.engine.Reading.{versions_in};

use crate::engine::in_memory::TablesInMemory;
use catalog_core::resolved::QueryReference;
use ended_versions::EndedVersions;
use period_core::{Memory, VersionRow, Window};
use period_keys::{CurrentRows, FixedValues, RowRange, TableIndex};
use std::alloc::Global;

/// The versions of a table that a reference of a query has to read, as its conditions say: of those
/// that a window sees, the ones whose values at some positions are in a range.
#[derive(Drop)]
pub struct Access {
    /// The window.
    pub window: Window,
    /// The table's number. If no table has it, there are no versions.
    pub table: u8,
    /// The positions and the range.
    pub rows: RowRange,
}

impl Access {
    /// Of the table and the window of a reference.
    pub fn of(reference: &QueryReference, rows: RowRange) -> Access
        ensures window { result.window ≡ reference.now.window }
        ensures table { result.table ≡ reference.now.table }
        ensures rows { result.rows ≡ rows }
    {
        Access {
            window: reference.window,
            table: reference.table,
            rows,
        }
    }

    /// The values that the ended versions to be read have at some positions, unless they lack one
    /// there. None if none is fixed, or if the window sees the current versions alone.
    pub fn ended_values(&self) -> Option<FixedValues<'_>>
        ensures { IfSome result (λ fixed. (version : Version)
            → has_key_in self.now.rows.positions self.now.rows.range version ≡ true
            → length (version_key fixed.positions.now version) ≡ length fixed.positions.now
            → version_key fixed.positions.now version ≡ fixed.values.now) }
    {
        match self.window {
            Window::Now => None,
            _ => self.rows.fixed(),
        }
    }
}

/// A choice of versions, of those that an access leaves, and the row that is made of each. It asks
/// the window itself, since current versions are given to it that the window does not see.
pub trait Selection {
    ghost use Rattle.period_core.specs.declared.version.VersionRow.{VersionRow as Version};

    /// A row that is made of a version.
    type Row: Drop;

    /// The row of a version.
    ghost made: { Version → Self.Row };

    /// A fact of each version that is taken.
    ghost IsTaken: { Self → Version → Type 0 };

    /// A fact of each version that is left out.
    ghost MayLack: { Self → Version → Type 0 };

    /// Whether the version is taken.
    fn takes(&self, version: &VersionRow) -> bool
        ensures taken { result ≡ true → IsTaken self.now version.now }
        ensures left { result ≡ false → MayLack self.now version.now };

    /// A row with a copy of the version's values.
    fn copied(alloc: Global, version: &VersionRow) -> Result<Self::Row, Memory>
        ensures { IfOk result (λ row. row ≡ made version.now) };

    /// A row with the version's values.
    fn moved(version: VersionRow) -> Self::Row
        ensures { result ≡ made version };
}

// ---- current versions

/// Adds the rows of some of these versions: no values are copied but theirs.
fn read_versions<S: Selection>(
    alloc: Global,
    selection: &S,
    versions: &[VersionRow],
    rows: &mut Vec<S::Row>,
) -> Result<(), Memory>
    ensures { OnOk result (AddRead (S.IsTaken selection.now) (S.MayLack selection.now) S.made
        versions.now rows.old.items rows.new.items) }
{
    for version in versions {
        if selection.takes(version) {
            rows.push(S::copied(alloc, version)?)?;
        }
    }
    Ok(())
}

/// Adds the rows of the current versions of all keys.
fn read_all<S: Selection>(
    alloc: Global,
    selection: &S,
    current: &CurrentRows,
    rows: &mut Vec<S::Row>,
) -> Result<(), Memory>
    ensures { OnOk result (AddRead (S.IsTaken selection.now) (S.MayLack selection.now) S.made
        current.now.rows rows.old.items rows.new.items) }
{
    for group in current.groups() {
        read_versions(alloc, selection, group.as_slice(), rows)?;
    }
    Ok(())
}

/// Adds the rows of the current versions in the range: with its key or a secondary index, only the
/// keys that may have such versions are looked at.
fn read_within<S: Selection>(
    alloc: Global,
    access: &Access,
    selection: &S,
    table: &TableIndex,
    rows: &mut Vec<S::Row>,
) -> Result<(), Memory>
    ensures { OnOk result (AddRead (S.IsTaken selection.now)
        (MayBeUnread access.now (S.MayLack selection.now)) S.made
        table.now.rows rows.old.items rows.new.items) }
{
    for group in table.groups_of(alloc, &access.rows)? {
        read_versions(alloc, selection, group.as_slice(), rows)?;
    }
    Ok(())
}

/// Adds the rows of the current versions.
fn read_current<S: Selection>(
    alloc: Global,
    access: &Access,
    selection: &S,
    table: &TableIndex,
    rows: &mut Vec<S::Row>,
) -> Result<(), Memory>
    ensures { OnOk result (AddRead (S.IsTaken selection.now)
        (MayBeUnread access.now (S.MayLack selection.now)) S.made
        table.now.rows rows.old.items rows.new.items) }
{
    if access.rows.range.is_all() {
        return read_all(alloc, selection, table.rows(), rows);
    }
    read_within(alloc, access, selection, table, rows)
}

// ---- ended versions

/// The versions of a list that the window sees, the last to end first, without some that are not in
/// the range.
fn ended_seen(
    alloc: Global,
    access: &Access,
    list: &EndedVersions,
) -> Result<Vec<VersionRow>, Memory>
    ensures { (versions : List Version) → Hold list.now versions → IfOk result (λ seen. AreTaken
        (IsSeen access.now) (MayBeUnread access.now (λ version. ⊥))
        (reverse versions) seen.items) }
{
    match access.ended_values() {
        Some(fixed) => list.seen_of_key(alloc, access.window, fixed.positions, fixed.values),
        None => list.seen(alloc, access.window),
    }
}

/// Adds the rows of the ended versions of a list.
fn read_list<S: Selection>(
    alloc: Global,
    access: &Access,
    selection: &S,
    list: &EndedVersions,
    rows: &mut Vec<S::Row>,
) -> Result<(), Memory>
    ensures { (versions : List Version) → Hold list.now versions
        → OnOk result (AddRead (S.IsTaken selection.now)
        (MayBeUnread access.now (S.MayLack selection.now)) S.made
        (reverse versions) rows.old.items rows.new.items) }
{
    for version in ended_seen(alloc, access, list)? {
        if !selection.takes(&version) {
            continue;
        }
        rows.push(S::moved(version))?;
    }
    Ok(())
}

// ---- both

/// Adds the rows of the versions that an access leaves and a selection takes, of those in memory.
pub fn read<S: Selection>(
    alloc: Global,
    tables: &TablesInMemory,
    access: &Access,
    selection: &S,
    rows: &mut Vec<S::Row>,
) -> Result<(), Memory>
    ensures { (versions : List Version)
        → Hold (ended_in tables.now.ended access.now.table) versions
        → OnOk result (AddRead (S.IsTaken selection.now)
        (MayBeUnread access.now (S.MayLack selection.now)) S.made
        (versions_in (map rows_by_key tables.now.current) access.now.table versions)
        rows.old.items rows.new.items) }
{
    let Some(table) = tables.table(access.table) else {
        return Ok(());
    };
    read_current(alloc, access, selection, table.current, rows)?;
    read_list(alloc, access, selection, table.ended, rows)
}
