//! The least day on which a table's key or a reference is broken, by the tables' definitions.

ghost use Rattle.std.specs.Prelude.{IfOk};
ghost use Rattle.period_keys.specs.Keys.{IsKeyClash, IsLeastOf, IsUncovered};
ghost use Rattle.period_keys.specs.Positions.{positions_of_places};

use crate::positions::positions_of;
use crate::references::rows_uncovered;
use crate::sweep::rows_clash;
use catalog_core::{Reference, TableDef};
use period_core::{Day, Memory, PeriodRow};
use std::alloc::Global;

/// The least day on which two of the table's rows share their key.
pub fn key_clash(alloc: Global, def: &TableDef, rows: &[PeriodRow]) -> Result<Option<Day>, Memory>
    ensures { IfOk result
        (IsLeastOf (IsKeyClash (positions_of_places def.now def.now.key) rows.now)) }
{
    let key = positions_of(alloc, def, def.key.as_slice())?;
    let found = rows_clash(alloc, key.as_slice(), rows)?;
    Ok(found)
}

/// The least day on which a child row holds and no parent row with the key that it names.
pub fn uncovered(
    alloc: Global,
    child: &TableDef,
    children: &[PeriodRow],
    parent: &TableDef,
    parents: &[PeriodRow],
    reference: &Reference,
) -> Result<Option<Day>, Memory>
    ensures { IfOk result (IsLeastOf (IsUncovered
        (positions_of_places child.now reference.now.own) children.now
        (positions_of_places parent.now reference.now.keys) parents.now)) }
{
    let own = positions_of(alloc, child, reference.own.as_slice())?;
    let keys = positions_of(alloc, parent, reference.keys.as_slice())?;
    let found = rows_uncovered(alloc, own.as_slice(), children, keys.as_slice(), parents)?;
    Ok(found)
}
