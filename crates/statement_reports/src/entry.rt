//! The entry of a statement of an audited run.

ghost use Rattle.std.specs.Prelude.{◌≡◌, None};

use crate::outcome::Outcome;
use period_core::Refusal;
use snapshot_audit::Verdict;

/// The result of a statement, and the audit of its answer.
#[derive(Drop, Debug)]
pub struct Entry {
    pub result: Result<Outcome, Refusal>,
    /// The verdict of the audit, or its refusal, which is out of memory. None if the result is no
    /// answer.
    pub audit: Option<Result<Verdict, Refusal>>,
}

impl Entry {
    /// A result that is no answer.
    pub fn unaudited(given: Result<Outcome, Refusal>) -> Entry
        ensures { result ≡ record { result = given; audit = None } }
    {
        Entry {
            result: given,
            audit: None,
        }
    }
}
