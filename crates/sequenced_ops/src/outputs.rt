//! The output of a join, of the pairs that it finds: they themselves, or a select list's values,
//! taken a batch at a time, so that memory follows the answer and not the pairs.

ghost use Rattle.std.specs.Prelude.{◌⊎◌, List, IfOk};
ghost use Rattle.period_core.specs.declared.row.PeriodRow.{PeriodRow as Row};
ghost use Rattle.temporal_model.specs.Snapshot.{Equivalent, InSnapshot};
ghost use Rattle.sequenced_ops.specs.Operations.{SnapshotsAre};
ghost use Rattle.sequenced_ops.specs.Outputs.{InSelected, IsGathered, IsGiven};

use crate::selection::select_meeting;
use crate::unions::union;
use catalog_core::Cond;
use coalesce_core::coalesce;
use period_core::{Memory, PeriodRow};
use std::alloc::Global;

/// The output of a join.
#[derive(Clone, Copy)]
pub enum JoinOutput<'a> {
    /// The pairs, but those that the conditions rule out.
    Pairs,
    /// The values at these positions of the pairs that meet all conditions.
    Columns(&'a [usize]),
}

/// The number of pairs that are found before they are selected.
const BATCH: usize = 4_096;

/// Up to this many selected rows are not coalesced.
const FEW: usize = 49_152;

/// The rows, coalesced if they are many and have no room for `more` rows. There is then room
/// for as many again, so that coalescing takes no more time than the sort of the answer does.
fn with_room(alloc: Global, rows: Vec<PeriodRow>, more: usize) -> Result<Vec<PeriodRow>, Memory>
    ensures { IfOk result (λ roomy. Equivalent rows.items roomy.items) }
{
    let length = rows.len().saturating_add(more);
    if length <= FEW || length <= rows.capacity() {
        return Ok(rows);
    }
    let mut shorter = coalesce(alloc, rows)?;
    shorter.reserve(shorter.len().saturating_add(more))?;
    Ok(shorter)
}

/// The rows selected before, and the selection of the pairs.
fn select_more(
    alloc: Global,
    conjuncts: &[Cond],
    columns: &[usize],
    selected: Vec<PeriodRow>,
    pairs: &[PeriodRow],
) -> Result<Vec<PeriodRow>, Memory>
    ensures { IfOk result (λ rows. SnapshotsAre (λ day values. InSnapshot selected.items day values
        ⊎ InSelected conjuncts.now columns.now pairs.now day values) rows.items) }
{
    let more = select_meeting(alloc, pairs, conjuncts, columns)?;
    let roomy = with_room(alloc, selected, more.len())?;
    union(roomy, more)
}

/// Selects the pairs, if columns are to be given and there are a batch of pairs. What it gives are
/// the rows selected so far.
pub fn select_batch(
    alloc: Global,
    conjuncts: &[Cond],
    output: JoinOutput,
    selected: Vec<PeriodRow>,
    pairs: &mut Vec<PeriodRow>,
) -> Result<Vec<PeriodRow>, Memory>
    ensures { IfOk result (λ rows. (all : List Row) →
        IsGathered conjuncts.now output.entry all selected.items pairs.old.items
        → IsGathered conjuncts.now output.entry all rows.items pairs.new.items) }
{
    match output {
        JoinOutput::Pairs => Ok(selected),
        JoinOutput::Columns(columns) => {
            if pairs.len() < BATCH {
                return Ok(selected);
            }
            let rows = select_more(alloc, conjuncts, columns, selected, pairs.as_slice())?;
            pairs.clear();
            Ok(rows)
        }
    }
}

/// The output for all pairs: for those that have been selected, and for those that are left.
pub fn given(
    alloc: Global,
    conjuncts: &[Cond],
    output: JoinOutput,
    selected: Vec<PeriodRow>,
    pairs: Vec<PeriodRow>,
) -> Result<Vec<PeriodRow>, Memory>
    ensures { IfOk result (λ rows. (all : List Row) →
        IsGathered conjuncts.now output.entry all selected.items pairs.items
        → IsGiven conjuncts.now output.entry all rows.items) }
{
    match output {
        JoinOutput::Pairs => Ok(pairs),
        JoinOutput::Columns(columns) => {
            select_more(alloc, conjuncts, columns, selected, pairs.as_slice())
        }
    }
}
