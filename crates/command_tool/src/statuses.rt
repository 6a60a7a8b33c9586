//! The exit statuses of results.

ghost use Rattle.std.specs.Prelude.{◌≡◌, is_err};
ghost use Rattle.std.specs.List.{list_any};
ghost use Rattle.command_line.specs.Audits.{fails_audit};
ghost use Rattle.command_tool.specs.Program.{audited_status, status_of};

use command_line::has_failed;
use period_core::Refusal;
use script_engine::Entry;

/// 1 if a statement was refused, else 0.
pub(crate) fn exit_status<T>(results: &[Result<T, Refusal>]) -> u8
    ensures { result ≡ status_of results.now }
{
    'statements: for outcome in results {
        if outcome.is_err() {
            return 1;
        }
    }
    0
}

// Whether one of the audits did not agree or was refused.
fn some_audit_failed(entries: &[Entry]) -> bool
    ensures { result ≡ list_any (λ entry. fails_audit entry.audit) entries.now }
{
    entries.iter().any(|entry| has_failed(&entry.audit))
}

// Whether one of the statements was refused.
fn some_is_refused(entries: &[Entry]) -> bool
    ensures { result ≡ list_any (λ entry. is_err entry.result) entries.now }
{
    entries.iter().any(|entry| entry.result.is_err())
}

/// 3 if an audit did not agree or was refused; else 1 if a statement was refused, else 0.
pub(crate) fn audited_status(entries: &[Entry]) -> u8
    ensures { result ≡ audited_status entries.now }
{
    if some_audit_failed(entries) {
        3
    } else if some_is_refused(entries) {
        1
    } else {
        0
    }
}
