//! The results of a script, their report and their status, for each mode.

ghost use Rattle.std.specs.Prelude.{◌≡◌, ℕ, List, IfErr, IfOk, OnOk};
ghost use Rattle.std.specs.Io.KnownBytes.{Appends};
ghost use Rattle.period_core.specs.declared.refusal.Refusal.{Refusal};
ghost use Rattle.history_model.specs.Histories.{new_database, opened};
ghost use Rattle.statement_reports.specs.AuditedReport.{audited_report};
ghost use Rattle.statement_reports.specs.CheckReport.{check_text};
ghost use Rattle.statement_reports.specs.Report.{report};
ghost use Rattle.script_engine.specs.script.AuditedRuns.{IsAuditedRunOf};
ghost use Rattle.script_engine.specs.script.Check.{IsCheckOf};
ghost use Rattle.script_engine.specs.script.Script.{IsRunBy, IsRunOf, MayRefuseNewRun};
ghost use Rattle.script_engine.specs.script.Script.{MayRefuseScript};
ghost use Rattle.command_tool.specs.Program.{IsOfReport, MayFailOver, audited_status, status_of};

use crate::statuses::{audited_status, exit_status};
use command_line::RunFault;
use memory_store::{MemoryStore, open_in_memory};
use period_core::Refusal;
use script_engine::{
    Entry, Outcome, PieceResult, ReportFault, check_script, run, write_audited, write_check,
    write_report,
};
use std::alloc::Global;
use std::io::Write;
use std::mem::ManuallyDrop;

/// The results that a mode keeps of a statement.
pub(crate) trait ModeResult {
    /// A script has these results.
    ghost is_of: { List ℕ → List Self → Type 0 };

    /// The refusals that a script may get as a whole.
    ghost may_refuse: { List ℕ → Refusal → Type 0 };

    /// The report of results.
    ghost text: { List Self → List ℕ };

    /// The exit status for their sake.
    ghost status_of: { List Self → ℕ };

    /// The results of a script.
    fn of_script(alloc: Global, script: &[u8]) -> Result<Vec<Self>, RunFault>
        ensures results { IfOk result (λ results. is_of script.now results.items) }
        ensures fault { IfErr result (MayFailOver may_refuse script.now) };

    /// Writes the report of results. After a fault the writer may hold a part of it.
    fn write<W: Write>(alloc: Global, out: &mut W, results: &[Self]) -> Result<(), ReportFault>
        ensures { OnOk result
            (Appends (W.contents out.old) (W.contents out.new) (text results.now)) };

    /// The exit status for their sake.
    fn status(results: &[Self]) -> u8
        ensures value { result ≡ status_of results.now }
        ensures kind { IsOfReport result };
}

impl ModeResult for Result<Outcome, Refusal> {
    ghost is_of = { IsRunOf };

    ghost may_refuse = { MayRefuseNewRun };

    ghost text = { report };

    ghost status_of = { status_of };

    fn of_script(alloc: Global, script: &[u8]) -> Result<Vec<Result<Outcome, Refusal>>, RunFault> {
        run_results(alloc, script)
    }

    fn write<W: Write>(
        alloc: Global,
        out: &mut W,
        results: &[Result<Outcome, Refusal>],
    ) -> Result<(), ReportFault> {
        write_report(alloc, out, results)
    }

    fn status(results: &[Result<Outcome, Refusal>]) -> u8 {
        exit_status(results)
    }
}

impl ModeResult for Entry {
    ghost is_of = { IsAuditedRunOf };

    ghost may_refuse = { MayRefuseNewRun };

    ghost text = { audited_report };

    ghost status_of = { audited_status };

    fn of_script(alloc: Global, script: &[u8]) -> Result<Vec<Entry>, RunFault> {
        run_results(alloc, script)
    }

    fn write<W: Write>(alloc: Global, out: &mut W, results: &[Entry]) -> Result<(), ReportFault> {
        write_audited(alloc, out, results)
    }

    fn status(results: &[Entry]) -> u8 {
        audited_status(results)
    }
}

impl ModeResult for Result<(), Refusal> {
    ghost is_of = { IsCheckOf };

    ghost may_refuse = { MayRefuseScript };

    ghost text = { check_text };

    ghost status_of = { status_of };

    fn of_script(alloc: Global, script: &[u8]) -> Result<Vec<Result<(), Refusal>>, RunFault> {
        match check_script(alloc, script) {
            Ok(results) => Ok(results),
            Err(refusal) => Err(RunFault::Script(refusal)),
        }
    }

    fn write<W: Write>(
        alloc: Global,
        out: &mut W,
        results: &[Result<(), Refusal>],
    ) -> Result<(), ReportFault> {
        write_check(alloc, out, results)
    }

    fn status(results: &[Result<(), Refusal>]) -> u8 {
        exit_status(results)
    }
}

// The results of a run of the script over a new store.
fn run_results<K: PieceResult<MemoryStore> + Drop>(
    alloc: Global,
    script: &[u8],
) -> Result<Vec<K>, RunFault>
    ensures run { IfOk result
        (λ results. IsRunBy K.is_step (opened new_database) script.now results.items) }
    ensures refused { IfErr result (MayFailOver MayRefuseNewRun script.now) }
{
    let Ok(connection) = open_in_memory(alloc) else {
        return Err(RunFault::Memory);
    };
    match run(alloc, connection, script) {
        Ok((results, engine)) => {
            // The process ends soon. To give back many rows, one by one, would take a fifth of the
            // time of the run.
            let _left = ManuallyDrop::new(engine);
            Ok(results)
        }
        Err((refusal, _connection)) => Err(RunFault::Script(refusal)),
    }
}
