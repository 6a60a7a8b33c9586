//! The periods of a table's rows by their keys.

ghost use Rattle.std.specs.Prelude.{◌≡◌};
ghost use Rattle.period_keys.specs.LookUps.{periods_by, periods_of, periods_of_rows};

use crate::current_rows::CurrentRows;
use crate::key::Key;
use crate::keyed_periods::KeyedPeriods;
use crate::periods_of_key::PeriodsOfKey;

/// The periods of rows by their keys: an index of them, or the rows themselves, if they are stored
/// by that key. Contracts read them by `periods_by`.
#[derive(Drop)]
pub enum PeriodsByKey<'a> {
    Index(&'a KeyedPeriods),
    OfRows(&'a CurrentRows),
}

impl<'a> PeriodsByKey<'a> {
    /// The periods of a key.
    pub fn of_key(&self, key: &Key) -> PeriodsOfKey<'_>
        ensures { periods_of result ≡ periods_by self.now key.now }
    {
        match self {
            PeriodsByKey::Index(index) => {
                let (first, second) = index.runs_of_key(key);
                PeriodsOfKey::InRuns(first, second)
            }
            PeriodsByKey::OfRows(current) => of_rows(*current, key),
        }
    }
}

// The periods of the rows with a key.
fn of_rows<'a>(current: &'a CurrentRows, key: &Key) -> PeriodsOfKey<'a>
    ensures { periods_of result ≡ periods_of_rows current.now key.now }
{
    match current.group_of_key(key) {
        Some(group) => PeriodsOfKey::OfGroup(group),
        None => PeriodsOfKey::InRuns(&[], &[]),
    }
}
