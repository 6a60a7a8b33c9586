//! Stored queries, answered from the versions in memory: no call of the database.

ghost use Rattle.std.specs.Prelude.{◌≡◌, IfOk, map, true};
ghost use Rattle.catalog_core.specs.stored.StoredAnswers.{is_shown};
ghost use Rattle.period_core.specs.declared.version.VersionRow.{VersionRow as Version};
ghost use Rattle.period_keys.specs.Current.{rows_by_key};
ghost use Rattle.period_keys.specs.Versions.{has_key_in};
ghost use Rattle.version_store.specs.Contents.{Contents};
ghost use Rattle.script_engine.specs.engine.Ended.{HaveEnded};
ghost use Rattle.script_engine.specs.engine.InMemory.{HaveCurrentRows};
ghost use Rattle.script_engine.specs.engine.VersionLists.{AreShownIn};

use crate::engine::chained::read_chained;
use crate::engine::in_memory::TablesInMemory;
use crate::engine::reading::{Access, Selection};
use catalog_core::{Stored, meets};
use period_core::{Memory, VersionRow};
use period_keys::RowRange;
use std::alloc::Global;

impl Selection for Stored {
    ghost use Rattle.std.specs.Prelude.{◌≡◌, false, true};
    ghost use Rattle.catalog_core.specs.stored.StoredAnswers.{is_shown};

    type Row = VersionRow;

    ghost made = { λ version. version };

    ghost IsTaken = { λ query version. is_shown query version ≡ true };

    ghost MayLack = { λ query version. is_shown query version ≡ false };

    fn takes(&self, version: &VersionRow) -> bool {
        meets(self, version)
    }

    fn copied(alloc: Global, version: &VersionRow) -> Result<VersionRow, Memory> {
        version.copy(alloc)
    }

    fn moved(version: VersionRow) -> VersionRow {
        version
    }
}

/// The rows of its table that a query's condition leaves: each version that it shows is one of
/// them.
fn rows_of(alloc: Global, tables: &mut TablesInMemory, query: &Stored) -> Result<RowRange, Memory>
    ensures left { IfOk result (λ rows. (version : Version) → is_shown query.now version ≡ true
        → has_key_in rows.positions rows.range version ≡ true) }
    ensures same { tables.new ≡ tables.old }
{
    match &query.condition {
        Some(condition) => tables.rows_left(alloc, query.table, condition),
        None => Ok(RowRange::all(alloc)),
    }
}

/// The versions of its table that a stored query shows, by values, then period start, then system
/// start: of those in memory, which are all. Those that have ended are the same afterwards, chained
/// if that may help.
pub fn shown_by(
    alloc: Global,
    tables: &mut TablesInMemory,
    query: &Stored,
) -> Result<Vec<VersionRow>, Memory>
    ensures right { IfOk result (λ rows. (c : Contents)
        → HaveCurrentRows c (map rows_by_key tables.old.current) → HaveEnded c tables.old.ended
        → AreShownIn c query.now rows.items) }
    ensures same { tables.new ≡ tables.old }
{
    let access = Access {
        window: query.window,
        table: query.table,
        rows: rows_of(alloc, tables, query)?,
    };
    let mut shown = Vec::new(alloc);
    read_chained(alloc, tables, &access, query, &mut shown)?;
    shown.sort()?;
    Ok(shown)
}
