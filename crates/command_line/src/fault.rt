//! Why a program ends with status 2, and the line that it then writes to standard error.

ghost use Rattle.std.specs.Prelude.{◌≡◌, [], IfOk, Some};
ghost use Rattle.std.specs.String.{string_bytes};
ghost use Rattle.std.specs.IoError.{error_kind};
ghost use Rattle.command_line.specs.Lines.{detail_of, fault_line, line_of, offset_of};
ghost use Rattle.command_line.specs.Lines.{program_text, refusal_line, without_memory, words_fault};

use period_core::Refusal;
use statement_reports::ReportFault;
use std::alloc::{AllocError, Global};
use std::io;
use std::io::ErrorKind;

/// The programs, which begin their lines with their names.
#[derive(Clone, Copy, Debug, PartialEq, Eq)]
pub enum ProgramName {
    /// `bitemporal`, over a store in memory.
    Bitemporal,
    /// `bitemporal_file`, over a store in a file.
    BitemporalFile,
}

impl ProgramName {
    fn text(self) -> &'static str
        ensures { result.now ≡ program_text self }
    {
        match self {
            ProgramName::Bitemporal => "bitemporal",
            ProgramName::BitemporalFile => "bitemporal_file",
        }
    }
}

/// Why a program gave no whole report, if its words ask for one.
#[derive(Clone, Copy, Debug, PartialEq, Eq)]
pub enum RunFault {
    /// The whole script was refused, or the store.
    Script(Refusal),
    /// Out of memory outside the script's statements.
    Memory,
    /// A word of the command line is not UTF-8.
    Words,
    /// The script's file did not open, or its reader failed.
    Read,
    /// The writer of the report failed.
    Write,
    /// The store's file does not open.
    NoStore,
    /// Another program has the store open.
    Locked,
    /// The clock of the store is later than the system's time.
    ClockAhead,
    /// The input ends within a statement, which was not run.
    Unfinished,
    /// The file of a copy, or the part of one that was not ended, exists already.
    CopyThere,
    /// The copy was not written.
    CopyFailed,
}

impl RunFault {
    /// Why the system did not give the words of the command line: a word is not UTF-8, or else out
    /// of memory.
    pub(crate) fn of_words(error: &io::Error) -> RunFault
        ensures { result ≡ words_fault (error_kind error.now) }
    {
        match error.kind() {
            ErrorKind::InvalidData => RunFault::Words,
            _ => RunFault::Memory,
        }
    }
}

impl From<ReportFault> for RunFault {
    ghost use Rattle.std.specs.Prelude.{◌≡◌};
    ghost use Rattle.command_line.specs.Lines.{fault_of};

    ghost from_gives = { λ report fault. fault ≡ fault_of report };

    fn from(fault: ReportFault) -> RunFault {
        match fault {
            ReportFault::Memory => RunFault::Memory,
            ReportFault::Write => RunFault::Write,
        }
    }
}

// The byte that a refusal names.
fn bad_offset(refusal: &Refusal) -> Option<usize>
    ensures { result ≡ offset_of refusal.now }
{
    match refusal {
        Refusal::BadToken(offset) => Some(*offset),
        _ => None,
    }
}

/// The line of a refusal: its number, its name, and the byte that it names, if it does.
pub(crate) fn line_of_refusal(
    alloc: Global,
    program: ProgramName,
    refusal: &Refusal,
) -> Result<String, AllocError>
    ensures { IfOk result (λ line. string_bytes line ≡ refusal_line program refusal.now) }
{
    let code = refusal.code();
    let name = refusal.name();
    match bad_offset(refusal) {
        Some(offset) => offset_line(alloc, program.text(), code, name, offset),
        None => plain_line(alloc, program.text(), code, name),
    }
}

fn plain_line(alloc: Global, program: &str, code: u8, name: &str) -> Result<String, AllocError>
    ensures { IfOk result (λ line. string_bytes line ≡ line_of program.now code name.now []) }
{
    format!(in alloc; "{program}: {code} {name}\n")
}

fn offset_line(
    alloc: Global,
    program: &str,
    code: u8,
    name: &str,
    offset: usize,
) -> Result<String, AllocError>
    ensures { IfOk result
        (λ line. string_bytes line
        ≡ line_of program.now code name.now (detail_of (Some offset))) }
{
    format!(in alloc; "{program}: {code} {name} {offset}\n")
}

// The line of a fault of a program.
macro_rules! line_of_fault {
    ($fault:expr, $program:literal) => {
        match $fault {
            RunFault::Script(_) => concat!($program, ": 61 Memory\n"),
            RunFault::Memory => concat!($program, ": 61 Memory\n"),
            RunFault::Words => concat!($program, ": a word of the command line is not UTF-8\n"),
            RunFault::Read => concat!($program, ": cannot read the script\n"),
            RunFault::Write => concat!($program, ": cannot write the report\n"),
            RunFault::NoStore => concat!($program, ": cannot open the store\n"),
            RunFault::Locked => concat!(
                $program,
                ": another program has the store open, perhaps an idle sqlite3\n"
            ),
            RunFault::ClockAhead => concat!(
                $program,
                ": the store's clock is ahead of the system's time: tools/alter STORE --clock-now ",
                "--to NEW moves it back, --clock-ahead runs all the same\n"
            ),
            RunFault::Unfinished => concat!(
                $program,
                ": the input ends within a statement, which was not run\n"
            ),
            RunFault::CopyThere => concat!($program, ": the file of the copy is there already\n"),
            RunFault::CopyFailed => concat!($program, ": cannot write the copy\n"),
        }
    };
}

/// The line of a fault, which takes no memory: in place of a refusal's line, the line of out of
/// memory.
pub(crate) fn ready_line(program: ProgramName, fault: RunFault) -> &'static str
    ensures { result.now ≡ fault_line program (without_memory fault) }
{
    match program {
        ProgramName::Bitemporal => line_of_fault!(fault, "bitemporal"),
        ProgramName::BitemporalFile => line_of_fault!(fault, "bitemporal_file"),
    }
}
