//! The program: what the words of its command line ask for, and its exit status.

ghost use Rattle.std.specs.Prelude.{◌≡◌, ◌≢◌, ◌≤◌, ℕ, [], List, Option, IfErr, IfOk, map};
ghost use Rattle.std.specs.String.{string_bytes};
ghost use Rattle.std.specs.Io.KnownBytes.{Keeps};
ghost use Rattle.clap.specs.Words.{fault_of};
ghost use Rattle.command_line.specs.CommandFaults.{IsReportedFor, IsShown};
ghost use Rattle.command_line.specs.CommandLine.{CallsFor, IsLineFault, bitemporal};
ghost use Rattle.command_line.specs.Lines.{IsReported, MayBeReportedAs, fault_line};
ghost use Rattle.command_line.specs.Reading.{TakesAtMost};
ghost use Rattle.command_line.specs.declared.command.CommandFault.{CommandFault};
ghost use Rattle.command_line.specs.declared.fault.ProgramName.TheVariants.{Bitemporal};
ghost use Rattle.command_line.specs.declared.fault.RunFault.{RunFault};
ghost use Rattle.command_tool.specs.Program.{EndsWell, failed_of, read_limit, script_of};

use crate::tool::run_tool;
use command_line::{
    Mode, ProgramName, RunFault, ScriptFiles, Scripts, Tracked, command_line, end_in, show,
};
use std::alloc::Global;
use std::io::{Read, Write};

/// Does what the words ask for: a run or a check of the script in a file, or in `input` if they
/// name none; help; or the version. Gives the exit status: of a run or a check as `run_tool` says,
/// 0 for help and the version, else 2, and then `err` gets a text that says why.
pub fn run_program<S: Scripts, R: Read, W: Write, E: Write>(
    alloc: Global,
    words: Result<Vec<String>, RunFault>,
    files: &mut ScriptFiles<'_, S>,
    input: &mut Tracked<R>,
    out: &mut W,
    err: &mut Tracked<E>,
) -> u8
    ensures status { result ≤ 3 }
    ensures lost { IfErr words (λ fault. (result ≡ 2)
        × Keeps (W.contents out.old) (W.contents out.new)
        × ((told : RunFault) × MayBeReportedAs fault told
        × IsReported err.new.has_failed (E.contents err.old.inner) (E.contents err.new.inner)
        (fault_line Bitemporal told))) }
    ensures runs { IfOk words (λ said. (mode : Mode) (file : Option (List ℕ))
        → CallsFor (map string_bytes said.items) mode file
        → EndsWell (record {
          mode = mode;
          script = script_of (S.content files.old.scripts.now) (R.remaining input.old.inner) file;
          read_failed = failed_of input.new.has_failed files.new.has_failed file;
          out_before = W.contents out.old;
          out_after = W.contents out.new;
          err_before = E.contents err.old.inner;
          err_after = E.contents err.new.inner;
          err_failed = err.new.has_failed;
          status = result;
        })) }

    // A fault that clap finds in the words is shown.
    ensures shown { IfOk words (λ said. fault_of bitemporal (map string_bytes said.items) ≢ []
        → (fault : CommandFault)
        × IsReportedFor (IsLineFault (map string_bytes said.items)) fault
        × IsShown Bitemporal fault result (W.contents out.old) (W.contents out.new)
        err.new.has_failed (E.contents err.old.inner) (E.contents err.new.inner)) }
    ensures taken { TakesAtMost read_limit
        (R.remaining input.old.inner) (R.remaining input.new.inner) }
{
    let program = ProgramName::Bitemporal;
    let asked = match words {
        Ok(words) => command_line(alloc, words.as_slice()),
        Err(fault) => return end_in(alloc, program, err, fault),
    };
    match asked {
        Ok((mode, None)) => run_tool(alloc, mode, input, out, err),
        Ok((mode, Some(name))) => match files.open(name.as_str()) {
            Ok(mut script) => {
                let status = run_tool(alloc, mode, &mut script, out, err);
                files.note(&script);
                status
            }
            Err(fault) => end_in(alloc, program, err, fault),
        },
        Err(fault) => show(alloc, program, &fault, out, err),
    }
}
