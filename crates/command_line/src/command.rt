//! The command line: what it may say, and what it chooses.

ghost use Rattle.std.specs.Prelude.{◌≡◌, ◌≢◌, ◌↔◌, [], ℕ, List, Option, false, codes, IfSome};
ghost use Rattle.std.specs.Prelude.{IfErr, IfNone, IfOk, IsTrue, MatchResult, OnOk, map};
ghost use Rattle.std.specs.Prelude.{option_map};
ghost use Rattle.std.specs.String.{string_bytes};
ghost use Rattle.clap.specs.Words.{app_of, fault_of, first_of, found_of, kind_of, rows_of, rule_of};
ghost use Rattle.clap.specs.Words.{subcommand_of};
ghost use Rattle.clap.specs.declared.builder.Command.TheViews.{out-Command};
ghost use Rattle.command_line.specs.CommandLine.{CallsFor, Chooses, IsMode, IsSet};
ghost use Rattle.command_line.specs.CommandLine.{IsLineFault, audit_flag};
ghost use Rattle.command_line.specs.CommandLine.{bitemporal, file_word, run_command};
ghost use Rattle.command_line.specs.CommandLine.{script_command};
ghost use Rattle.command_line.specs.CommandFaults.{IsReportedFor};

use crate::help::{
    ABOUT, AUDIT_HELP, CHECK_ABOUT, CHECK_STATUSES, EXAMPLES, FILE_HELP, REFUSALS, RUN_ABOUT,
    RUN_STATUSES, SECOND_PROGRAM, VERSION,
};
use clap::error::ErrorKind;
use clap::{Arg, ArgAction, ArgMatches, Command};
use std::alloc::{AllocError, Global};
use std::convert::AsStr;
use thiserror::Error;

/// The mode of a run of the program.
#[derive(Clone, Copy, PartialEq, Eq, Debug)]
pub enum Mode {
    /// Runs a script and prints its report.
    Run,
    /// Runs a script, audits each answer, and prints the report of both.
    RunAudited,
    /// Checks the syntax of a script without running it.
    Check,
}

/// Why a command line chooses nothing that runs.
#[derive(Debug, Drop, Error)]
pub enum CommandFault {
    /// The words ask for help or the version, and this is its text.
    #[error("{0}")]
    Shown(String),
    /// There is a mistake in the words, and this text says which.
    #[error("{0}")]
    Mistake(String),
    /// Out of memory.
    #[error("out of memory")]
    Memory,
}

impl CommandFault {
    /// The fault that clap reports, with its text.
    pub(crate) fn of_clap(alloc: Global, fault: &clap::Error) -> CommandFault
        ensures memory { kind_of fault.now ≡ ErrorKind.OutOfMemory
            → result ≡ CommandFault.Memory }
        ensures told { IsReportedFor (λ kind. kind ≡ kind_of fault.now) result }
    {
        if fault.kind() == ErrorKind::OutOfMemory {
            return CommandFault::Memory;
        }
        match format!(in alloc; "{fault}") {
            Ok(text) if fault.use_stderr() => CommandFault::Mistake(text),
            Ok(text) => CommandFault::Shown(text),
            Err(_) => CommandFault::Memory,
        }
    }

    /// The mistake that the program itself finds in the words of this command.
    pub(crate) fn of_mistake(
        alloc: Global,
        command: &mut Command<'_>,
        kind: ErrorKind,
        message: &str,
    ) -> CommandFault
        ensures { IsReportedFor (λ found. found ≡ kind) result }
    {
        match command.error(kind, message) {
            Ok(fault) => CommandFault::of_clap(alloc, &fault),
            Err(_) => CommandFault::Memory,
        }
    }
}

fn file_argument<'a>(alloc: Global) -> Arg<'a>
    ensures rule { rule_of result ≡ file_word }
    ensures local { result.global ≡ false }
{
    Arg::new(alloc, "FILE")
        .help(FILE_HELP)
        .action(ArgAction::Set)
}

fn audit_argument<'a>(alloc: Global) -> Arg<'a>
    ensures rule { rule_of result ≡ audit_flag }
    ensures local { result.global ≡ false }
{
    Arg::new(alloc, "audit")
        .long("audit")
        .help(AUDIT_HELP)
        .action(ArgAction::SetTrue)
}

// A subcommand that takes a script, with its exit statuses below its help.
fn script_subcommand<'a>(
    alloc: Global,
    name: &'a str,
    about: &'a str,
    statuses: &'a str,
) -> Result<Command<'a>, AllocError>
    ensures app { IfOk result (λ c. app_of c ≡ script_command name.now) }
    ensures local { IfOk result (λ c. (out-Command c).has_globals ≡ false) }
{
    let file = file_argument(alloc);
    let named = Command::new(alloc, name).about(about).after_help(statuses);
    let whole = named.arg(file)?;
    Ok(whole)
}

// The subcommand that runs a script.
fn run_subcommand<'a>(alloc: Global) -> Result<Command<'a>, AllocError>
    ensures app { IfOk result (λ c. app_of c ≡ run_command) }
    ensures local { IfOk result (λ c. (out-Command c).has_globals ≡ false) }
{
    let audit = audit_argument(alloc);
    let plain = script_subcommand(alloc, "run", RUN_ABOUT, RUN_STATUSES)?;
    let whole = plain.arg(audit)?;
    Ok(whole)
}

// The program's command line, with this text below its own help.
fn command<'a>(alloc: Global, after: &'a str) -> Result<Command<'a>, AllocError>
    ensures { IfOk result (λ c. app_of c ≡ bitemporal) }
{
    let run = run_subcommand(alloc)?;
    let check = script_subcommand(alloc, "check", CHECK_ABOUT, CHECK_STATUSES)?;
    let named = Command::new(alloc, "bitemporal")
        .about(ABOUT)
        .version(VERSION)
        .after_help(after);
    let top = named.subcommand_required(true);
    let running = top.subcommand(run)?;
    let whole = running.subcommand(check)?;
    Ok(whole)
}

/// The first value of an argument.
pub(crate) fn value_of<'a>(matches: &ArgMatches<'a>, id: &str) -> Option<&'a str>
    ensures { option_map (λ s. s.now) result ≡ first_of id.now (rows_of (found_of matches.now)) }
{
    matches.get_str(id)
}

/// Whether the flag of this name is set.
pub(crate) fn is_set(matches: &ArgMatches<'_>, name: &str) -> bool
    ensures { IsTrue result ↔ IsSet name.now (rows_of (found_of matches.now)) }
{
    match value_of(matches, name) {
        Some(value) => value == "true",
        None => false,
    }
}

// The mode of a subcommand with its matches.
fn mode_of(name: &str, matches: &ArgMatches<'_>) -> Option<Mode>
    ensures mode { IfSome result (IsMode (name.now, rows_of (found_of matches.now))) }
    ensures other { IfNone result ((name.now ≢ codes "run") × (name.now ≢ codes "check")) }
{
    match name {
        "run" if is_set(matches, "audit") => Some(Mode::RunAudited),
        "run" => Some(Mode::Run),
        "check" => Some(Mode::Check),
        _ => None,
    }
}

fn file_of(alloc: Global, matches: &ArgMatches<'_>) -> Result<Option<String>, AllocError>
    ensures { IfOk result
        (λ file. option_map string_bytes file
        ≡ first_of (codes "FILE") (rows_of (found_of matches.now))) }
{
    match value_of(matches, "FILE") {
        Some(file) => Ok(Some(String::from_str(alloc, file)?)),
        None => Ok(None),
    }
}

// The text below the program's own help.
fn text_below_help(alloc: Global) -> Result<String, AllocError> {
    format!(in alloc; "{EXAMPLES}\n\n{SECOND_PROGRAM}\n\n{RUN_STATUSES}\n\n{REFUSALS}")
}

/// The mode that a command line asks for, with the program's name as its first word, and the
/// file if one is named.
pub fn command_line<S: AsStr>(
    alloc: Global,
    words: &[S],
) -> Result<(Mode, Option<String>), CommandFault>
    // Lines of the program's forms are accepted, and those in which clap finds no fault.
    ensures accepts { (mode : Mode) (file : Option (List ℕ))
        → CallsFor (map S.text words.now) mode file
        → MatchResult result
        (λ chosen. (chosen.0 ≡ mode) × (option_map string_bytes chosen.1 ≡ file))
        (λ fault. fault ≡ CommandFault.Memory) }

    // No other line is accepted than those in which clap finds no fault.
    ensures refuses { OnOk result (fault_of bitemporal (map S.text words.now) ≡ []) }
    ensures chosen { IfOk result
        (λ chosen. Chooses (subcommand_of bitemporal (map S.text words.now)) chosen.0
        (option_map string_bytes chosen.1)) }

    // Why it is refused is what clap finds, or else that no subcommand was met.
    ensures refused { IfErr result (IsReportedFor (IsLineFault (map S.text words.now))) }
{
    let Ok(after) = text_below_help(alloc) else {
        return Err(CommandFault::Memory);
    };
    let Ok(mut command) = command(alloc, after.as_str()) else {
        return Err(CommandFault::Memory);
    };
    let matches = match command.try_get_matches_from_mut(words) {
        Ok(matches) => matches,
        Err(fault) => return Err(CommandFault::of_clap(alloc, &fault)),
    };
    let Some((name, inner)) = matches.subcommand() else {
        return Err(no_subcommand(alloc, &mut command));
    };
    let Some(mode) = mode_of(name, inner) else {
        return Err(no_subcommand(alloc, &mut command));
    };
    match file_of(alloc, inner) {
        Ok(file) => Ok((mode, file)),
        Err(_) => Err(CommandFault::Memory),
    }
}

// No subcommand of the program was met.
fn no_subcommand(alloc: Global, command: &mut Command<'_>) -> CommandFault
    ensures { IsReportedFor (λ kind. kind ≡ ErrorKind.MissingSubcommand) result }
{
    CommandFault::of_mistake(
        alloc,
        command,
        ErrorKind::MissingSubcommand,
        "a subcommand is required",
    )
}
