//! The end of a program that gives no report: in a fault, whose line is for standard error, or in
//! the text of the command line's help, version or mistake.

ghost use Rattle.std.specs.Prelude.{◌≡◌, ◌≤◌, true};
ghost use Rattle.command_line.specs.CommandFaults.{IsShown};
ghost use Rattle.command_line.specs.Lines.{IsReported, MayBeReportedAs, fault_line};

use crate::command::CommandFault;
use crate::fault::{ProgramName, RunFault, line_of_refusal, ready_line};
use crate::tracked::Tracked;
use std::alloc::Global;
use std::io::Write;

/// Ends a program in a fault: writes its line, and gives the exit status.
pub fn end_in<W: Write>(
    alloc: Global,
    program: ProgramName,
    err: &mut Tracked<W>,
    fault: RunFault,
) -> u8
    ensures status { result ≡ 2 }
    ensures told { (told : RunFault) × MayBeReportedAs fault told
        × IsReported err.new.has_failed (W.contents err.old.inner) (W.contents err.new.inner)
        (fault_line program told) }
    ensures failed { err.old.has_failed ≡ true → err.new.has_failed ≡ true }
{
    report_fault(alloc, program, err, fault);
    2
}

/// Ends a program whose words ask for nothing that runs: shows help or the version on the output,
/// and a mistake on standard error. Gives the exit status: 0 for what is shown whole, else 2.
pub fn show<W: Write, E: Write>(
    alloc: Global,
    program: ProgramName,
    fault: &CommandFault,
    out: &mut W,
    err: &mut Tracked<E>,
) -> u8
    ensures status { result ≤ 2 }
    ensures shown { IsShown program fault.now result (W.contents out.old) (W.contents out.new)
        err.new.has_failed (E.contents err.old.inner) (E.contents err.new.inner) }
{
    match fault {
        CommandFault::Shown(text) => match out.write_all(text.as_bytes()) {
            Ok(()) => 0,
            Err(_) => end_in(alloc, program, err, RunFault::Write),
        },
        CommandFault::Mistake(text) => {
            write_text(err, text.as_bytes());
            2
        }
        CommandFault::Memory => end_in(alloc, program, err, RunFault::Memory),
    }
}

// Writes the line of a fault: the whole line, unless a write failed. If there is no memory for
// the line of a refusal, it is the line of out of memory.
fn report_fault<W: Write>(
    alloc: Global,
    program: ProgramName,
    err: &mut Tracked<W>,
    fault: RunFault,
)
    ensures told { (told : RunFault) × MayBeReportedAs fault told
        × IsReported err.new.has_failed (W.contents err.old.inner) (W.contents err.new.inner)
        (fault_line program told) }
    ensures failed { err.old.has_failed ≡ true → err.new.has_failed ≡ true }
{
    match fault {
        RunFault::Script(refusal) => match line_of_refusal(alloc, program, &refusal) {
            Ok(line) => write_text(err, line.as_bytes()),
            Err(_) => write_text(err, ready_line(program, RunFault::Memory).as_bytes()),
        },
        other => write_text(err, ready_line(program, other).as_bytes()),
    }
}

/// Writes the text, or as much of it as the writer takes before it fails.
pub fn write_text<W: Write>(err: &mut Tracked<W>, text: &[u8])
    ensures reported { IsReported err.new.has_failed
        (W.contents err.old.inner) (W.contents err.new.inner) text.now }
    ensures failed { err.old.has_failed ≡ true → err.new.has_failed ≡ true }
{
    let mut written = 0;
    'writes: while written < text.len() {
        match err.write(&text[written..]) {
            Ok(0) => return,
            Ok(count) => written += count,
            Err(_) => return,
        }
    }
}
