//! Versions that a reference of a select sees and that its conditions do not rule out, as rows
//! without system time.

ghost use Rattle.std.specs.Prelude.{◌≡◌, IfOk};
ghost use Rattle.history_model.specs.Versions.{row_of};

use crate::engine::reading::Selection;
use catalog_core::Cond;
use catalog_core::resolved::QueryReference;
use period_core::{Memory, PeriodRow, VersionRow};
use period_keys::{KeyRange, RowConditions, range_of_key_within};
use sequenced_ops::is_ruled_out;
use std::alloc::Global;

/// Conditions on combined rows that have the values of a reference's row from a position on.
#[derive(Clone, Copy)]
pub struct Conditions<'a> {
    /// The reference.
    pub reference: &'a QueryReference,
    /// The conditions of the select.
    pub conjuncts: &'a [Cond],
    /// The position.
    pub start: usize,
    /// The number of values of the row.
    pub width: usize,
}

impl RowConditions for Conditions<'_> {
    ghost use Rattle.period_keys.specs.FixedKeys.{IsRangeWithin};

    ghost IsRange = { λ conditions positions range. IsRangeWithin conditions.conjuncts.now
        conditions.start conditions.width positions range };

    fn range_at(&self, alloc: Global, positions: &[usize]) -> Result<KeyRange, Memory> {
        range_of_key_within(alloc, self.conjuncts, self.start, self.width, positions)
    }
}

impl Selection for Conditions<'_> {
    ghost use Rattle.std.specs.Prelude.{◌≡◌, ◌⊎◌, false, true};
    ghost use Rattle.history_model.specs.Versions.{row_of};
    ghost use Rattle.period_core.specs.Windows.{window_sees};
    ghost use Rattle.sequenced_ops.specs.Planning.{RulesOut};

    type Row = PeriodRow;

    ghost made = { row_of };

    ghost IsTaken = { λ conditions version.
        window_sees conditions.reference.now.window version.from version.to ≡ true };

    ghost MayLack = { λ conditions version.
        (window_sees conditions.reference.now.window version.from version.to ≡ false)
        ⊎ RulesOut conditions.conjuncts.now conditions.start version.values };

    fn takes(&self, version: &VersionRow) -> bool {
        self.reference.window.sees(version.from, version.to)
            && !is_ruled_out(self.conjuncts, self.start, version.values.as_slice())
    }

    fn copied(alloc: Global, version: &VersionRow) -> Result<PeriodRow, Memory>
        ensures { IfOk result (λ row. row ≡ row_of version.now) }
    {
        Ok(PeriodRow {
            values: version.values.copy(alloc)?,
            period: version.period,
        })
    }

    fn moved(version: VersionRow) -> PeriodRow
        ensures { result ≡ row_of version }
    {
        PeriodRow {
            values: version.values,
            period: version.period,
        }
    }
}
