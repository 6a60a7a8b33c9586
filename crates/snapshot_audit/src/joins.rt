//! Pairs of rows that hold on the same days.

ghost use Rattle.std.specs.Prelude.{All, IfOk, OnOk};
ghost use Rattle.temporal_model.specs.Snapshot.{Equivalent};
ghost use Rattle.snapshot_audit.specs.Keys.{AreInOrder, HasPeriod};
ghost use Rattle.snapshot_audit.specs.Pairs.{Adds, AreJoined, Begun, InAny, InEach, InMeetingPair};
ghost use Rattle.snapshot_audit.specs.Pairs.{InPair, Sided};

use crate::combined_rows::{CombinedOutput, kept, side_by_side};
use crate::exclusion::is_ruled_out;
use crate::keys::{KeyedEntry, beginning_within, by_key};
use crate::shared_columns::shared_columns;
use crate::staggered::staggered;
use catalog_core::resolved::Select;
use period_core::{Memory, PeriodRow};
use std::alloc::Global;

/// The side of a join that an entry is of.
#[derive(Clone, Copy)]
pub(crate) enum EntrySide {
    /// The values of the row come first.
    First,
    /// The values of the row come second.
    Second,
}

// Adds the output of the values of both rows on the days of both, unless no combined row that
// begins with them meets the conditions.
fn add_pair(
    alloc: Global,
    select: &Select,
    output: CombinedOutput,
    rows: &mut Vec<PeriodRow>,
    first: &PeriodRow,
    second: &PeriodRow,
) -> Result<(), Memory>
    ensures { OnOk result (Adds (InPair select.now output first.now second.now)
        (InMeetingPair select.now output first.now second.now) rows.old.items rows.new.items) }
{
    let Some(period) = first.period.intersect(second.period) else {
        return Ok(());
    };
    let conjuncts = select.conjuncts.as_slice();
    if is_ruled_out(conjuncts, first.values.as_slice(), second.values.as_slice()) {
        return Ok(());
    }
    let both = side_by_side(alloc, first.values.as_slice(), second.values.as_slice())?;
    match kept(alloc, select, output, both)? {
        None => Ok(()),
        Some(values) => {
            rows.push(PeriodRow { values, period })?;
            Ok(())
        }
    }
}

// Adds the pair of an entry of this side and one of the other side.
fn add_sided(
    alloc: Global,
    select: &Select,
    output: CombinedOutput,
    rows: &mut Vec<PeriodRow>,
    entry: &KeyedEntry,
    other: &KeyedEntry,
    side: EntrySide,
) -> Result<(), Memory>
    ensures { OnOk result (Adds (Sided (InPair select.now output) side entry.now other.now)
        (Sided (InMeetingPair select.now output) side entry.now other.now)
        rows.old.items rows.new.items) }
{
    match side {
        EntrySide::First => add_pair(alloc, select, output, rows, entry.row, other.row),
        EntrySide::Second => add_pair(alloc, select, output, rows, other.row, entry.row),
    }
}

// Adds the pairs of an entry of this side with these of the other side.
fn add_partners(
    alloc: Global,
    select: &Select,
    output: CombinedOutput,
    rows: &mut Vec<PeriodRow>,
    entry: &KeyedEntry,
    partners: &[KeyedEntry],
    side: EntrySide,
) -> Result<(), Memory>
    ensures { OnOk result
        (Adds (InEach (Sided (InPair select.now output) side) entry.now partners.now)
        (InEach (Sided (InMeetingPair select.now output) side) entry.now partners.now)
        rows.old.items rows.new.items) }
{
    for other in partners {
        add_sided(alloc, select, output, rows, entry, other, side)?;
    }
    Ok(())
}

// Up to this many rows are left as they come.
const FEW: usize = 65_536;

// The rows, without those that lie within another if they are many and have no room for `more`
// more. There is then room for as many again, so that this takes no more time than the pairs do,
// and memory follows what the rows hold and not the pairs.
fn with_room(alloc: Global, rows: Vec<PeriodRow>, more: usize) -> Result<Vec<PeriodRow>, Memory>
    ensures { IfOk result (λ roomy. Equivalent rows.items roomy.items) }
{
    let length = rows.len().saturating_add(more);
    if length <= FEW || length <= rows.capacity() {
        return Ok(rows);
    }
    let mut shorter = staggered(alloc, rows)?.into_vec();
    shorter.reserve(shorter.len().saturating_add(more))?;
    Ok(shorter)
}

// Adds the pairs of each entry of this side with entries of the other side that have its key and
// begin on one of its days.
fn add_begun(
    alloc: Global,
    select: &Select,
    output: CombinedOutput,
    rows: Vec<PeriodRow>,
    entries: &[KeyedEntry],
    others: &[KeyedEntry],
    side: EntrySide,
) -> Result<Vec<PeriodRow>, Memory>
    requires ordered { AreInOrder others.now }
    requires entries { All HasPeriod entries.now }
    requires others { All HasPeriod others.now }
    ensures { IfOk result
        (λ more. Adds (InAny (Sided (InPair select.now output) side) entries.now others.now)
        (InAny (Begun (Sided (InMeetingPair select.now output) side)) entries.now others.now)
        rows.items more.items) }
{
    let mut added = rows;
    for entry in entries {
        let partners = beginning_within(others, entry);
        let mut roomy = with_room(alloc, added, partners.len())?;
        add_partners(alloc, select, output, &mut roomy, entry, partners, side)?;
        added = roomy;
    }
    Ok(added)
}

/// The output of the pairs of rows on the days of both. One of a pair begins on a day
/// of the other, so the pairs are found where one begins.
pub(crate) fn joined(
    alloc: Global,
    select: &Select,
    output: CombinedOutput,
    rows: &[PeriodRow],
    others: &[PeriodRow],
) -> Result<Vec<PeriodRow>, Memory>
    ensures { IfOk result
        (λ pairs. AreJoined select.now output rows.now others.now pairs.items) }
{
    let columns = shared_columns(alloc, select, rows, others)?;
    let first = by_key(alloc, columns.first.as_slice(), rows)?;
    let second = by_key(alloc, columns.second.as_slice(), others)?;
    let firsts = first.as_slice();
    let seconds = second.as_slice();
    let none = Vec::new(alloc);
    let pairs = add_begun(
        alloc,
        select,
        output,
        none,
        firsts,
        seconds,
        EntrySide::First,
    )?;
    add_begun(
        alloc,
        select,
        output,
        pairs,
        seconds,
        firsts,
        EntrySide::Second,
    )
}
