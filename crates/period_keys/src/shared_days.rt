//! The first day that two periods share.

ghost use Rattle.std.specs.Prelude.{◌≡◌, Contains};
ghost use Rattle.period_keys.specs.Keys.{BothHold, IsLeastOf};
ghost use Rattle.period_keys.specs.Index.{earlier, periods_at};

use crate::key::Key;
use crate::keyed_periods::KeyedPeriods;
use period_core::{Day, Period};

/// The first day that both periods hold.
fn first_of_both(one: &Period, other: &Period) -> Option<Day>
    ensures { IsLeastOf (λ day. BothHold day one.now other.now) result }
{
    let both = one.intersect(*other)?;
    Some(both.start)
}

/// The first day that both periods hold, if the other is not a removed period of the key.
pub fn first_of_kept(gone: &KeyedPeriods, key: &Key, one: &Period, other: &Period) -> Option<Day>
    ensures { IsLeastOf (λ day. BothHold day one.now other.now
        × (Contains (periods_at gone.now key.now) other.now → ⊥)) result }
{
    let Some(day) = first_of_both(one, other) else {
        return None;
    };
    if gone.has(key, other) {
        return None;
    }
    Some(day)
}

/// The earlier of two days that may be there.
pub fn earlier(one: Option<Day>, other: Option<Day>) -> Option<Day>
    ensures { result ≡ earlier one other }
{
    match (one, other) {
        (Some(day), Some(next)) => Some(if next < day { next } else { day }),
        (None, day) => day,
        (day, None) => day,
    }
}
