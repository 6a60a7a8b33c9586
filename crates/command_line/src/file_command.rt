//! The command line of the second program: the store, the scripts, and what is asked of them.

ghost use Rattle.std.specs.Prelude.{◌≡◌, [], IfErr, IfOk, IsNone, IsSome, MatchResult, OnOk};
ghost use Rattle.std.specs.Prelude.{codes, false, map, unwrap_or};
ghost use Rattle.std.specs.String.{string_bytes};
ghost use Rattle.clap.specs.Words.{all_of, app_of, fault_of, first_of, found_of, matches_of};
ghost use Rattle.clap.specs.Words.{rows_of, rule_of};
ghost use Rattle.command_line.specs.CommandFaults.{IsReportedFor};
ghost use Rattle.command_line.specs.FileCommand.{AskFor, Asks, HasConflict, IsFileCommand};
ghost use Rattle.command_line.specs.FileCommand.{IsFileFault, NeedsRun, SaysSeconds};
ghost use Rattle.command_line.specs.FileCommand.{WaitsFor, arguments_of, bitemporal_file};
ghost use Rattle.command_line.specs.FileCommand.{flag_word, scripts_word, store_word, wait_word};

use crate::command::{CommandFault, is_set, value_of};
use crate::file_help::{
    ABOUT, AFTER_HELP, CLOCK_AHEAD_HELP, FILE_HELP, NOW_HELP, READ_ONLY_HELP, STOP_HELP,
    STORE_HELP, TABLES_HELP, VERIFY_HELP, WAIT_HELP,
};
use crate::help::{AUDIT_HELP, VERSION};
use clap::builder::ValueParser;
use clap::error::ErrorKind;
use clap::{Arg, ArgAction, ArgMatches, Command};
use std::alloc::{AllocError, Global};
use std::convert::AsStr;

// The seconds of a day, the longest wait.
const MOST_SECONDS: u64 = 86_400;

/// The request of a command line of the second program.
#[derive(Drop)]
pub struct Request {
    /// The name of the store's file.
    pub store: String,
    /// The names of the scripts, in order; standard input if there is none.
    pub files: Vec<String>,
    /// Each answer is audited.
    pub audits: bool,
    /// Nothing is run after a refused statement.
    pub stops: bool,
    /// The system's time moves the store's clock.
    pub timed: bool,
    /// The clock may be ahead of the system's time then.
    pub clock_ahead: bool,
    /// The tables are listed, and nothing is run.
    pub lists: bool,
    /// The versions are counted and summed, and nothing is run.
    pub verifies: bool,
    /// Nothing is written.
    pub reads_only: bool,
    /// For so many seconds it waits while another program has the store open.
    pub wait: u32,
}

fn store_argument<'a>(alloc: Global) -> Arg<'a>
    ensures rule { rule_of result ≡ store_word }
    ensures local { result.global ≡ false }
{
    Arg::new(alloc, "STORE")
        .help(STORE_HELP)
        .required(true)
        .action(ArgAction::Set)
}

fn file_arguments<'a>(alloc: Global) -> Arg<'a>
    ensures rule { rule_of result ≡ scripts_word }
    ensures local { result.global ≡ false }
{
    Arg::new(alloc, "FILE")
        .help(FILE_HELP)
        .action(ArgAction::Append)
}

fn flag<'a>(alloc: Global, name: &'a str, help: &'a str) -> Arg<'a>
    ensures rule { rule_of result ≡ flag_word name.now }
    ensures local { result.global ≡ false }
{
    Arg::new(alloc, name)
        .long(name)
        .help(help)
        .action(ArgAction::SetTrue)
}

fn wait_argument<'a>(alloc: Global) -> Arg<'a>
    ensures rule { rule_of result ≡ wait_word }
    ensures local { result.global ≡ false }
{
    Arg::new(alloc, "wait")
        .long("wait")
        .help(WAIT_HELP)
        .value_name("SECONDS")
        .value_parser(ValueParser::Unsigned(0, MOST_SECONDS))
        .action(ArgAction::Set)
}

// The program's command line.
fn file_command<'a>(alloc: Global) -> Result<Command<'a>, AllocError>
    ensures { IfOk result (λ c. app_of c ≡ bitemporal_file) }
{
    let named = Command::new(alloc, "bitemporal_file")
        .about(ABOUT)
        .version(VERSION)
        .after_help(AFTER_HELP);
    let placed = named.arg(store_argument(alloc))?;
    let filed = placed.arg(file_arguments(alloc))?;
    let audited = filed.arg(flag(alloc, "audit", AUDIT_HELP))?;
    let stopping = audited.arg(flag(alloc, "stop", STOP_HELP))?;
    let timed = stopping.arg(flag(alloc, "now", NOW_HELP))?;
    let ahead = timed.arg(flag(alloc, "clock-ahead", CLOCK_AHEAD_HELP))?;
    let listing = ahead.arg(flag(alloc, "tables", TABLES_HELP))?;
    let verifying = listing.arg(flag(alloc, "verify", VERIFY_HELP))?;
    let reading = verifying.arg(flag(alloc, "read-only", READ_ONLY_HELP))?;
    let whole = reading.arg(wait_argument(alloc))?;
    Ok(whole)
}

// The texts, owned.
fn owned(alloc: Global, texts: &[&str]) -> Result<Vec<String>, AllocError>
    ensures { IfOk result (λ own. map string_bytes own.items ≡ map (λ text. text.now) texts.now) }
{
    let mut own = Vec::new(alloc);
    for text in texts {
        own.push(String::from_str(alloc, text)?)?;
    }
    Ok(own)
}

fn files_of(alloc: Global, matches: &ArgMatches<'_>) -> Result<Vec<String>, AllocError>
    ensures { IfOk result (λ files. map string_bytes files.items
        ≡ unwrap_or (all_of (codes "FILE") (rows_of (found_of matches.now))) []) }
{
    match matches.get_strs("FILE") {
        Some(names) => owned(alloc, names),
        None => Ok(Vec::new(alloc)),
    }
}

fn store_of(alloc: Global, matches: &ArgMatches<'_>) -> Result<String, AllocError>
    ensures { IfOk result (λ store. string_bytes store
        ≡ unwrap_or (first_of (codes "STORE") (rows_of (found_of matches.now))) []) }
{
    match value_of(matches, "STORE") {
        Some(name) => String::from_str(alloc, name),
        None => Ok(String::new(alloc)),
    }
}

// The number that a text says, or 0.
fn seconds_in(text: &str) -> u32
    ensures { SaysSeconds text.now result }
{
    match text.parse::<u32>() {
        Ok(seconds) => seconds,
        Err(_) => 0,
    }
}

fn wait_of(matches: &ArgMatches<'_>) -> u32
    ensures { WaitsFor (first_of (codes "wait") (rows_of (found_of matches.now))) result }
{
    match value_of(matches, "wait") {
        Some(text) => seconds_in(text),
        None => 0,
    }
}

fn asked_of(alloc: Global, matches: &ArgMatches<'_>) -> Result<Request, AllocError>
    ensures { IfOk result (Asks (rows_of (found_of matches.now))) }
{
    Ok(Request {
        store: store_of(alloc, matches)?,
        files: files_of(alloc, matches)?,
        audits: is_set(matches, "audit"),
        stops: is_set(matches, "stop"),
        timed: is_set(matches, "now"),
        clock_ahead: is_set(matches, "clock-ahead"),
        lists: is_set(matches, "tables"),
        verifies: is_set(matches, "verify"),
        reads_only: is_set(matches, "read-only"),
        wait: wait_of(matches),
    })
}

// With which argument that calls for a run, as the usage names it, if there is one.
fn running_argument(asked: &Request) -> Option<&'static str>
    ensures none { IsNone result → ¬ NeedsRun asked.now }
    ensures some { IsSome result → NeedsRun asked.now }
{
    if asked.audits {
        Some("with '--audit'")
    } else if asked.stops {
        Some("with '--stop'")
    } else if asked.timed {
        Some("with '--now'")
    } else if !asked.files.is_empty() {
        Some("with '[FILE]...'")
    } else {
        None
    }
}

// An argument, and with or without which other it cannot be used, as the usage names them.
fn conflict_in(asked: &Request) -> Option<(&'static str, &'static str)>
    ensures none { IsNone result → ¬ HasConflict asked.now }
    ensures some { IsSome result → HasConflict asked.now }
{
    if asked.lists && asked.verifies {
        return Some(("--tables", "with '--verify'"));
    }
    if asked.reads_only && asked.timed {
        return Some(("--read-only", "with '--now'"));
    }
    if asked.clock_ahead && !asked.timed {
        return Some(("--clock-ahead", "without '--now'"));
    }
    let Some(other) = running_argument(asked) else {
        return None;
    };
    if asked.lists {
        Some(("--tables", other))
    } else if asked.verifies {
        Some(("--verify", other))
    } else {
        None
    }
}

// The mistake of an argument that cannot be used so.
fn mistake_beside(
    alloc: Global,
    command: &mut Command<'_>,
    argument: &str,
    beside: &str,
) -> CommandFault
    ensures { IsReportedFor (λ kind. kind ≡ ErrorKind.ArgumentConflict) result }
{
    match format!(in alloc; "the argument '{argument}' cannot be used {beside}") {
        Ok(message) => CommandFault::of_mistake(
            alloc,
            command,
            ErrorKind::ArgumentConflict,
            message.as_str(),
        ),
        Err(_) => CommandFault::Memory,
    }
}

/// The request of a command line, with the program's name as its first word.
pub fn parse_request<S: AsStr>(alloc: Global, words: &[S]) -> Result<Request, CommandFault>
    // Lines of the usual form are accepted.
    ensures accepts { IsFileCommand (arguments_of (map S.text words.now))
        → MatchResult result (AskFor (arguments_of (map S.text words.now)))
        (λ fault. fault ≡ CommandFault.Memory) }

    // No other line is accepted than those in which clap finds no fault and no argument is in
    // conflict with another.
    ensures taken { OnOk result (fault_of bitemporal_file (map S.text words.now) ≡ []) }
    ensures asked { IfOk result (Asks (matches_of bitemporal_file (map S.text words.now))) }
    ensures alone { IfOk result (λ asked. ¬ HasConflict asked) }
    ensures refused { IfErr result (IsReportedFor (IsFileFault (map S.text words.now))) }
{
    let Ok(mut command) = file_command(alloc) else {
        return Err(CommandFault::Memory);
    };
    let matches = match command.try_get_matches_from_mut(words) {
        Ok(matches) => matches,
        Err(fault) => return Err(CommandFault::of_clap(alloc, &fault)),
    };
    let Ok(asked) = asked_of(alloc, &matches) else {
        return Err(CommandFault::Memory);
    };
    match conflict_in(&asked) {
        None => Ok(asked),
        Some((argument, beside)) => Err(mistake_beside(alloc, &mut command, argument, beside)),
    }
}
