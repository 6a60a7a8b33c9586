//! Conditions that must all hold.

ghost use Rattle.std.specs.Prelude.{◌≡◌, true};
ghost use Rattle.history_model.specs.OrdinaryQuery.{meets_all};
ghost use Rattle.sequenced_ops.specs.Planning.{RulesOut};

use crate::refutation::is_refuted;
use catalog_core::{Cond, holds};
use period_core::Value;

/// Whether each of the conditions holds of the row's values.
pub fn meets_all(conjuncts: &[Cond], values: &[Value]) -> bool
    ensures { result ≡ meets_all conjuncts.now values.now }
{
    for condition in conjuncts {
        if !holds(condition, values) {
            return false;
        }
    }
    true
}

/// Whether the values, which a row has from a position on, refute one of the conditions.
pub fn is_ruled_out(conjuncts: &[Cond], start: usize, values: &[Value]) -> bool
    ensures { result ≡ true → RulesOut conjuncts.now start values.now }
{
    for condition in conjuncts {
        if is_refuted(condition, start, values) {
            return true;
        }
    }
    false
}
