//! Rows that hold values over a period, each with the system time in which it is recorded.

ghost use Rattle.std.specs.Prelude.{◌≡◌, ◌↔◌, IfOk, IsTrue};

use crate::memory::Memory;
use crate::moment::Moment;
use crate::period::Period;
use crate::value::Values;
use std::alloc::Global;
use std::cmp::Ordering;

/// Values that hold on each day of a period, as recorded from one moment on and before another.
/// Versions are in the order of their values, then of the starts of their periods, then of the
/// starts of their system times. If these are the same, the ends of the periods decide, and
/// then the ends of the system times.
#[derive(Drop, Debug)]
pub struct VersionRow {
    /// The values, column by column.
    pub values: Values,
    /// The days on which they hold.
    pub period: Period,
    /// The first moment of the version's system time.
    pub from: Moment,
    /// The moment at which its system time ends: FOREVER if the version is current.
    pub to: Moment,
}

impl VersionRow {
    /// An equal version.
    pub fn copy(&self, alloc: Global) -> Result<VersionRow, Memory>
        ensures { IfOk result (λ version. version ≡ self.now) }
    {
        Ok(VersionRow {
            values: self.values.copy(alloc)?,
            period: self.period,
            from: self.from,
            to: self.to,
        })
    }
}

impl PartialEq for VersionRow {
    ghost use Rattle.std.specs.Cmp.{partial_equiv_from_equiv, eq_by_cmp_equiv};
    ghost use Rattle.std.specs.Ordering.{eq_by_cmp};
    ghost use Rattle.period_core.specs.Order.{version_cmp};
    ghost use Rattle.period_core.specs.OrderLaws.{version_cmp_total};

    ghost eq = { eq_by_cmp version_cmp };

    ghost laws = { partial_equiv_from_equiv (eq_by_cmp_equiv version_cmp_total) };

    fn eq(&self, other: &VersionRow) -> bool
        ensures value { result ≡ eq_by_cmp version_cmp self.now other.now }
        ensures same { IsTrue result ↔ (self.now ≡ other.now) }
    {
        self.cmp(other) == Ordering::Equal
    }
}

impl Eq for VersionRow {
    ghost use Rattle.std.specs.Cmp.{eq_by_cmp_equiv};
    ghost use Rattle.period_core.specs.OrderLaws.{version_cmp_total};

    ghost laws = { eq_by_cmp_equiv version_cmp_total };
}

impl Ord for VersionRow {
    ghost use Rattle.std.specs.Prelude.{refl};
    ghost use Rattle.period_core.specs.Order.{version_cmp};
    ghost use Rattle.period_core.specs.OrderLaws.{version_cmp_total};

    ghost cmp = { version_cmp };

    ghost total = { version_cmp_total };

    ghost matches_partial_cmp = { λ x y. refl };

    ghost matches_eq = { λ x y. refl };

    fn cmp(&self, other: &VersionRow) -> Ordering {
        self.values
            .cmp(&other.values)
            .then(self.period.start.cmp(&other.period.start))
            .then(self.from.cmp(&other.from))
            .then(self.period.end.cmp(&other.period.end))
            .then(self.to.cmp(&other.to))
    }
}

impl PartialOrd for VersionRow {
    ghost use Rattle.std.specs.Cmp.{partial_order_from_total};
    ghost use Rattle.std.specs.Ordering.{as_partial_cmp};
    ghost use Rattle.period_core.specs.Order.{version_cmp};
    ghost use Rattle.period_core.specs.OrderLaws.{version_cmp_total};

    ghost partial_cmp = { as_partial_cmp version_cmp };

    ghost laws = { partial_order_from_total version_cmp_total };

    fn partial_cmp(&self, other: &VersionRow) -> Option<Ordering> {
        Some(self.cmp(other))
    }
}
