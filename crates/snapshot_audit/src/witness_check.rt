//! The witnesses of an answer, checked without memory.

ghost use Rattle.std.specs.Prelude.{◌≡◌, ◌↔◌, ◌≤◌, length, IsTrue, IfNone, IfSome, slice_get};
ghost use Rattle.temporal_model.specs.Snapshot.{InSnapshot};
ghost use Rattle.temporal_model.specs.Answer.{IsShortest, IsCertified};
ghost use Rattle.temporal_model.specs.Witness.{WitnessEachRow, witness_of};
ghost use Rattle.snapshot_audit.specs.Faults.{BeginsAnew, BeginsIn};
ghost use Rattle.snapshot_audit.specs.Faults.{IsSound, IsFirstFault, IsFaultless};
ghost use Rattle.snapshot_audit.specs.Gaps.{HasGaps};

use crate::gaps::has_gaps;
use crate::snapshots::is_held_on;
use period_core::{PeriodRow, Witness};

/// `None` if each row has its witness and the list is the shortest of its snapshots. Otherwise
/// the least number, from 1, of a row without a witness; or whose witness is not its first day and
/// the day before; or whose values the list holds on the day before; or that shares values and
/// first day with an earlier row. If only witnesses are spare it is the number of rows plus 1.
/// An answer in order is read twice; for any other list each row is compared with every row.
pub fn check_witnesses(rows: &[PeriodRow], witnesses: &[Witness]) -> Option<usize>
    ensures faultless { IfNone result (IsFaultless rows.now witnesses.now) }
    ensures certified { IfNone result (IsCertified rows.now) }
    ensures shortest { IfNone result (IsShortest rows.now) }
    ensures witnesses { IfNone result
        (WitnessEachRow (InSnapshot rows.now) rows.now witnesses.now) }

    ensures fault { IfSome result (IsFirstFault rows.now witnesses.now) }
{
    let apart = has_gaps(rows);
    for (place, row) in rows.iter().enumerate() {
        if !is_sound(rows, witnesses, place, row, apart) {
            return Some(place + 1);
        }
    }
    if rows.len() < witnesses.len() {
        return Some(rows.len() + 1);
    }
    None
}

// Whether the row at this place has its witness, its values are absent on the day before, and no
// earlier row begins as it does. Rows with gaps need only their witnesses.
fn is_sound(
    rows: &[PeriodRow],
    witnesses: &[Witness],
    place: usize,
    row: &PeriodRow,
    apart: bool,
) -> bool
    requires there { slice_get rows.now place ≡ Some row.now }
    requires apart { IsTrue apart → HasGaps rows.now }
    ensures { IsTrue result ↔ IsSound rows.now witnesses.now place row.now }
{
    if !has_its_witness(witnesses, place, row) {
        return false;
    }
    apart || begins_anew(rows, place, row)
}

// Whether the witness at this place is the row's.
fn has_its_witness(witnesses: &[Witness], place: usize, row: &PeriodRow) -> bool
    ensures { IsTrue result ↔ (slice_get witnesses.now place ≡ Some (witness_of row.now)) }
{
    let Some(witness) = witnesses.get(place) else {
        return false;
    };
    let start = row.period.start;
    let wanted = Witness {
        held: start,
        absent: start.prev(),
    };
    is_same(*witness, wanted)
}

// Whether the row's values are absent on the day before its first, and no earlier row begins as it
// does.
fn begins_anew(rows: &[PeriodRow], place: usize, row: &PeriodRow) -> bool
    requires { place ≤ length rows.now }
    ensures { IsTrue result ↔ BeginsAnew rows.now place row.now }
{
    if is_held_on(rows, &row.values, row.period.start.number() - 1) {
        return false;
    }
    !begins_in(&rows[..place], row)
}

// Whether one of the rows has the values and the first day of this one.
fn begins_in(rows: &[PeriodRow], row: &PeriodRow) -> bool
    ensures { IsTrue result ↔ BeginsIn rows.now row.now }
{
    for other in rows {
        if other.values == row.values && other.period.start == row.period.start {
            return true;
        }
    }
    false
}

// Whether the two witnesses have the same days.
fn is_same(a: Witness, b: Witness) -> bool
    ensures { IsTrue result ↔ (a ≡ b) }
{
    let same_absent = match (a.absent, b.absent) {
        (Some(x), Some(y)) => x == y,
        (None, None) => true,
        _ => false,
    };
    a.held == b.held && same_absent
}
