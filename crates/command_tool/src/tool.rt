//! A run of the program: a script from a reader, the report of its run, with audits or without, or
//! of its check to a writer, and the exit status.

ghost use Rattle.std.specs.Prelude.{IfErr, IfOk};
ghost use Rattle.command_line.specs.Reading.{TakesAtMost};
ghost use Rattle.command_tool.specs.Program.{EndsWell, GivesResults, IsOfReport, MayEndBy};
ghost use Rattle.command_tool.specs.Program.{MayEndIn, MayFailSilently, Reports, ReportsText};
ghost use Rattle.command_tool.specs.Program.{read_limit};

use crate::mode_results::ModeResult;
use command_line::{Mode, ProgramName, RunFault, Tracked, end_in, read_script};
use period_core::Refusal;
use script_engine::{Entry, MOST_BYTES, Outcome};
use std::alloc::Global;
use std::io::{Read, Write};

/// Runs the script that the reader has, over a new store in memory, or checks it, as the mode says,
/// and writes the report. Gives the exit status: 2 if the script was refused as a whole, or the
/// reader, the writer or memory failed; else 3 if an audit did not agree or was refused; else 1
/// if a statement was refused; else 0. With 2 `err` gets a line, whole unless a write failed,
/// and after a fault of the writer `out` may hold a part of the report.
pub fn run_tool<R: Read, W: Write, E: Write>(
    alloc: Global,
    mode: Mode,
    input: &mut Tracked<R>,
    out: &mut W,
    err: &mut Tracked<E>,
) -> u8
    ensures ends { EndsWell (record {
      mode = mode;
      script = R.remaining input.old.inner;
      read_failed = input.new.has_failed;
      out_before = W.contents out.old;
      out_after = W.contents out.new;
      err_before = E.contents err.old.inner;
      err_after = E.contents err.new.inner;
      err_failed = err.new.has_failed;
      status = result;
    }) }
    ensures taken { TakesAtMost read_limit
        (R.remaining input.old.inner) (R.remaining input.new.inner) }
{
    let ended = report_in(alloc, mode, input, out);
    match ended {
        Ok(status) => status,
        Err(fault) => end_in(alloc, ProgramName::Bitemporal, err, fault),
    }
}

// Runs or checks the script, as the mode says, and writes the report. Gives the exit status.
fn report_in<R: Read, W: Write>(
    alloc: Global,
    mode: Mode,
    input: &mut Tracked<R>,
    out: &mut W,
) -> Result<u8, RunFault>
    ensures reported { IfOk result
        (Reports mode (R.remaining input.old.inner) (W.contents out.old) (W.contents out.new)) }
    ensures status { IfOk result IsOfReport }
    ensures refused { IfErr result
        (MayEndIn mode (R.remaining input.old.inner) input.new.has_failed
        (W.contents out.old) (W.contents out.new)) }
    ensures taken { TakesAtMost read_limit
        (R.remaining input.old.inner) (R.remaining input.new.inner) }
{
    match mode {
        Mode::Run => report::<Result<Outcome, Refusal>, R, W>(alloc, input, out),
        Mode::RunAudited => report::<Entry, R, W>(alloc, input, out),
        Mode::Check => report::<Result<(), Refusal>, R, W>(alloc, input, out),
    }
}

// Writes the report of the script. Gives the exit status.
fn report<K: ModeResult + Drop, R: Read, W: Write>(
    alloc: Global,
    input: &mut Tracked<R>,
    out: &mut W,
) -> Result<u8, RunFault>
    ensures reported { IfOk result
        (ReportsText K.is_of K.text K.status_of
        (R.remaining input.old.inner) (W.contents out.old) (W.contents out.new)) }
    ensures status { IfOk result IsOfReport }
    ensures refused { IfErr result
        (MayEndBy (MayFailSilently K.may_refuse (R.remaining input.old.inner) input.new.has_failed)
        (GivesResults K.is_of (R.remaining input.old.inner))
        (W.contents out.old) (W.contents out.new)) }
    ensures taken { TakesAtMost read_limit
        (R.remaining input.old.inner) (R.remaining input.new.inner) }
{
    let script = read_script(alloc, input, MOST_BYTES)?;
    let results = K::of_script(alloc, script.as_slice())?;
    K::write(alloc, out, results.as_slice())?;
    Ok(K::status(results.as_slice()))
}
