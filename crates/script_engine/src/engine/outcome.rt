//! The outcome of a change, as it is reported.

ghost use Rattle.std.specs.Prelude.{◌≡◌};
ghost use Rattle.catalog_core.specs.declared.change.Action.{Action};
ghost use Rattle.script_engine.specs.engine.Planned.{planned_count, word_of};

use catalog_core::Plan;
use statement_reports::{Outcome, Word};

/// The outcome of a change of this word and this plan: of an INSERT how many rows were given, of an
/// UPDATE or a DELETE how many current versions it touched.
pub fn done(word: Word, plan: &Plan) -> Outcome
    ensures { (action : Action) → word ≡ word_of action
        → result ≡ Outcome.Done word (planned_count action plan.now) }
{
    let count = match word {
        Word::Insert => plan.added.len(),
        _ => plan.ended.len(),
    };
    Outcome::Done(word, count as u64)
}
