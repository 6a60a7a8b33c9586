//! Audits that fail.

ghost use Rattle.std.specs.Prelude.{◌≡◌};
ghost use Rattle.command_line.specs.Audits.{fails_audit};

use period_core::Refusal;
use snapshot_audit::Verdict;

/// Whether an audit was made, and did not agree or was refused.
pub fn has_failed(audit: &Option<Result<Verdict, Refusal>>) -> bool
    ensures { result ≡ fails_audit audit.now }
{
    match audit {
        None | Some(Ok(Verdict::Agrees(_))) => false,
        Some(Ok(Verdict::Differs(_) | Verdict::BadWitness(_))) => true,
        Some(Err(_)) => true,
    }
}
