//! The key of a row, over the row's period.

ghost use Rattle.std.specs.Prelude.{◌≡◌, ◌↔◌, IsTrue};

use crate::key::Key;
use period_core::{Day, Period};
use std::cmp::Ordering;
use std::marker::Model;

/// The key of a row with the row's period, which contracts see as a row of the key's values alone.
/// Row keys are in the order of their keys, and with one key in the order of their periods.
#[derive(Drop)]
pub struct RowKey<'a> {
    key: &'a Key,
    period: Period,
}

impl<'a> Model for RowKey<'a> {
    ghost use Rattle.period_core.specs.declared.row.PeriodRow.{PeriodRow as Row};

    ghost Value = { Row };

    ghost view = { λ r. record { values = r.key.now; period = r.period } };
}

impl<'a> RowKey<'a> {
    /// The key of a row, over its period.
    pub fn new(key: &'a Key, period: Period) -> RowKey<'a>
        ensures { result ≡ record { values = key.now; period = period } }
    {
        RowKey { key, period }
    }

    /// Whether the keys are the same.
    pub fn has_key_of(&self, other: &RowKey) -> bool
        ensures { IsTrue result ↔ (self.now.values ≡ other.now.values) }
    {
        self.key == other.key
    }

    /// The first day of the period.
    pub fn start(&self) -> Day
        ensures { result ≡ self.now.period.start }
    {
        self.period.start
    }

    /// The day after its last.
    pub fn end(&self) -> Day
        ensures { result ≡ self.now.period.end }
    {
        self.period.end
    }
}

impl<'a> PartialEq for RowKey<'a> {
    ghost use Rattle.std.specs.Cmp.{partial_equiv_from_equiv, eq_by_cmp_equiv};
    ghost use Rattle.std.specs.Ordering.{eq_by_cmp};
    ghost use Rattle.period_core.specs.Order.{row_cmp};
    ghost use Rattle.period_keys.specs.Repeats.{row_cmp_total};

    ghost eq = { eq_by_cmp row_cmp };

    ghost laws = { partial_equiv_from_equiv (eq_by_cmp_equiv row_cmp_total) };

    fn eq(&self, other: &RowKey<'a>) -> bool {
        self.cmp(other) == Ordering::Equal
    }
}

impl<'a> Eq for RowKey<'a> {
    ghost use Rattle.std.specs.Cmp.{eq_by_cmp_equiv};
    ghost use Rattle.period_keys.specs.Repeats.{row_cmp_total};

    ghost laws = { eq_by_cmp_equiv row_cmp_total };
}

impl<'a> Ord for RowKey<'a> {
    ghost use Rattle.std.specs.Prelude.{refl};
    ghost use Rattle.period_core.specs.Order.{row_cmp};
    ghost use Rattle.period_keys.specs.Repeats.{row_cmp_total};

    ghost cmp = { row_cmp };

    ghost total = { row_cmp_total };

    ghost matches_partial_cmp = { λ x y. refl };

    ghost matches_eq = { λ x y. refl };

    fn cmp(&self, other: &RowKey<'a>) -> Ordering {
        match self.key.cmp(other.key) {
            Ordering::Equal => self.period.cmp(&other.period),
            order => order,
        }
    }
}

impl<'a> PartialOrd for RowKey<'a> {
    ghost use Rattle.std.specs.Cmp.{partial_order_from_total};
    ghost use Rattle.std.specs.Ordering.{as_partial_cmp};
    ghost use Rattle.period_core.specs.Order.{row_cmp};
    ghost use Rattle.period_keys.specs.Repeats.{row_cmp_total};

    ghost partial_cmp = { as_partial_cmp row_cmp };

    ghost laws = { partial_order_from_total row_cmp_total };

    fn partial_cmp(&self, other: &RowKey<'a>) -> Option<Ordering> {
        Some(self.cmp(other))
    }
}
