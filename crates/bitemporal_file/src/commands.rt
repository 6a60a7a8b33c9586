//! The commands of a session, whose lines begin with a dot. One more is a variant of
//! `SessionCommand` with its word, what it reports in `report_of`, and its line in `HELP`; in
//! `specs/Commands` the same.

ghost use Rattle.std.specs.Prelude.{◌≡◌, ◌≤◌, ◌++◌, ℕ, [], IfErr, IfOk, List, Some, length};
ghost use Rattle.std.specs.Char as chars;
ghost use Rattle.std.specs.List.{list_all, prefix_len};
ghost use Rattle.sql_statements.specs.Lexis as lexis;
ghost use Rattle.version_store.specs.StoreState.{IsStoreRefusal, IsUsable, SparesOthers};
ghost use Rattle.history_model.specs.Histories.{History};
ghost use Rattle.script_engine.specs.engine.Stored.{EngineRepresents, WasUsable};
ghost use Rattle.bitemporal_file.specs.Copies.{IsBackupFault, IsFileOf};
ghost use Rattle.bitemporal_file.specs.Commands as commands;
ghost use Rattle.bitemporal_file.specs.Commands.{IsAnswer, done_line, makes_file, refused_line};
ghost use Rattle.bitemporal_file.specs.Commands.{word_of};
ghost use Rattle.bitemporal_file.specs.declared.commands.SessionCommand.TheVariants.{Backup};

use crate::backup::back_up;
use crate::listing::clock_text;
use crate::system::System;
use crate::tables::text_of;
use crate::verification::verified_text;
use command_line::RunFault;
use period_core::Refusal;
use script_engine::Engine;
use sql_statements::scan::is_blank;
use sqlite::Alter;
use std::alloc::{AllocError, Global};
use std::str;

// The report of `.help`.
const HELP: &[u8] = b"\
help,.tables,the clock and the tables
help,.clock,the clock
help,.verify,the number of versions of each table and a sum of the history
help,.backup FILE,a copy of the store in FILE
help,.help,the commands
";

/// A command of a session.
#[derive(Clone, Copy)]
pub(crate) enum SessionCommand {
    /// Lists the clock and the tables.
    Tables,
    /// Says the clock.
    Clock,
    /// Counts the versions of each table, and says the sum of the history.
    Verify,
    /// Makes a copy of the store in the file that is named after the word.
    Backup,
    /// Lists the commands.
    Help,
}

impl SessionCommand {
    // The command's word, which follows the dot.
    fn word(self) -> &'static str
        ensures { result.now ≡ word_of self }
    {
        match self {
            SessionCommand::Tables => "tables",
            SessionCommand::Clock => "clock",
            SessionCommand::Verify => "verify",
            SessionCommand::Backup => "backup",
            SessionCommand::Help => "help",
        }
    }

    // Whether it makes a file, which is named after its word.
    fn makes_file(self) -> bool
        ensures { result ≡ makes_file self }
    {
        matches!(self, SessionCommand::Backup)
    }
}

// The number of letters that come first.
fn word_size(line: &[u8]) -> usize
    ensures size { result ≡ prefix_len chars.is_ascii_alphabetic line.now }
    ensures within { result ≤ length line.now }
{
    for (i, byte) in line.iter().enumerate() {
        if !byte.is_ascii_alphabetic() {
            return i;
        }
    }
    line.len()
}

// The word of a line, of which this is after the dot.
fn word_in(line: &[u8]) -> &[u8]
    ensures { result.now ≡ commands.word_in line.now }
{
    &line[..word_size(line)]
}

fn are_blank(bytes: &[u8]) -> bool
    ensures { result ≡ list_all lexis.is_blank bytes.now }
{
    bytes.iter().all(|byte| is_blank(*byte))
}

fn command_named(word: &[u8]) -> Option<SessionCommand>
    ensures { result ≡ commands.command_named word.now }
{
    if word == b"tables".as_slice() {
        Some(SessionCommand::Tables)
    } else if word == b"clock".as_slice() {
        Some(SessionCommand::Clock)
    } else if word == b"verify".as_slice() {
        Some(SessionCommand::Verify)
    } else if word == b"backup".as_slice() {
        Some(SessionCommand::Backup)
    } else if word == b"help".as_slice() {
        Some(SessionCommand::Help)
    } else {
        None
    }
}

// The bytes after the word of a line.
fn after_word(line: &[u8]) -> &[u8]
    ensures { result.now ≡ commands.after_word line.now }
{
    &line[word_size(line)..]
}

// The name of a file after the word, without the blanks around it.
fn file_in(line: &[u8]) -> &[u8]
    ensures { result.now ≡ commands.file_in line.now }
{
    after_word(line).trim_ascii()
}

fn begins_blank(bytes: &[u8]) -> bool
    ensures { result ≡ commands.begins_blank bytes.now }
{
    match bytes {
        [byte, ..] => byte.is_ascii_whitespace(),
        [] => false,
    }
}

// Whether what a command wants is after its word.
fn fits(command: SessionCommand, line: &[u8]) -> bool
    ensures { result ≡ commands.fits command line.now }
{
    if command.makes_file() {
        begins_blank(after_word(line)) && !file_in(line).is_empty()
    } else {
        are_blank(after_word(line))
    }
}

// The command of a line: its word alone is one's, and what the command wants follows.
fn asked_in(line: &[u8]) -> Option<SessionCommand>
    ensures { result ≡ commands.asked_in line.now }
{
    match command_named(word_in(line)) {
        Some(command) if fits(command, line) => Some(command),
        _ => None,
    }
}

// The record of a command that is refused, with more on the cause.
fn refused_text(
    alloc: Global,
    word: &[u8],
    refusal: &Refusal,
    cause: &str,
) -> Result<Vec<u8>, AllocError>
    ensures { IfOk result (λ text. text.items ≡ refused_line word.now refusal.now cause.now) }
{
    let code = refusal.code();
    let name = refusal.name();
    let refused = format!(in alloc; ",refused,{code},{name},{cause}\n")?;
    let mut text = Vec::new(alloc);
    text.extend_from_slice(b"command,")?;
    text.extend_from_slice(word)?;
    text.extend_from_slice(refused.as_bytes())?;
    Ok(text)
}

// The report of a command.
fn report_of<S: Alter>(
    alloc: Global,
    engine: &mut Engine<S>,
    command: SessionCommand,
) -> Result<Vec<u8>, Refusal>
    ensures report { IfOk result (λ text. IsUsable S.Store engine.new.connection
        → (history : History) → EngineRepresents S.Store history engine.old
        → text.items ≡ commands.report_of history command) }
    ensures named { IfErr result IsStoreRefusal }
    ensures same { IsUsable S.Store engine.new.connection
        → (history : History) → EngineRepresents S.Store history engine.old
        → EngineRepresents S.Store history engine.new }
    ensures usable { WasUsable S.Store engine.old.connection engine.new.connection }
    ensures others { SparesOthers S.Store engine.old.connection engine.new.connection }
{
    match command {
        SessionCommand::Tables => text_of(alloc, engine),
        SessionCommand::Clock => Ok(clock_text(alloc, engine.clock())?),
        SessionCommand::Verify => verified_text(alloc, engine),
        SessionCommand::Backup => Ok(Vec::new(alloc)),
        SessionCommand::Help => {
            let mut text = Vec::new(alloc);
            text.extend_from_slice(HELP)?;
            Ok(text)
        }
    }
}

// The report of a command, and that it is done.
fn done_text<S: Alter>(
    alloc: Global,
    engine: &mut Engine<S>,
    command: SessionCommand,
) -> Result<Vec<u8>, Refusal>
    ensures report { IfOk result (λ text. IsUsable S.Store engine.new.connection
        → (history : History) → EngineRepresents S.Store history engine.old
        → text.items ≡ commands.report_of history command ++ done_line command) }
    ensures named { IfErr result IsStoreRefusal }
    ensures same { IsUsable S.Store engine.new.connection
        → (history : History) → EngineRepresents S.Store history engine.old
        → EngineRepresents S.Store history engine.new }
    ensures usable { WasUsable S.Store engine.old.connection engine.new.connection }
    ensures others { SparesOthers S.Store engine.old.connection engine.new.connection }
{
    let mut text = report_of(alloc, engine, command)?;
    let word = command.word();
    let done = format!(in alloc; "command,{word},done\n")?;
    text.extend_from_slice(done.as_bytes())?;
    Ok(text)
}

// As what a fault that stopped a command is reported.
fn refusal_for(fault: &RunFault) -> Refusal
    ensures { result ≡ commands.refusal_for fault.now }
{
    match fault {
        RunFault::Script(refusal) => *refusal,
        RunFault::Memory => Refusal::Memory,
        _ => Refusal::Store,
    }
}

// The cause of a fault in words, if it is reported.
fn cause_of(fault: &RunFault) -> &'static str
    ensures { result.now ≡ commands.cause_of fault.now }
{
    match fault {
        RunFault::CopyThere => "the file of the copy is there already",
        RunFault::CopyFailed => "cannot write the copy",
        _ => "",
    }
}

// The record of a command that a fault stopped.
fn stopped_text(alloc: Global, word: &[u8], fault: &RunFault) -> Result<Vec<u8>, AllocError>
    ensures { IfOk result (λ text. text.items
        ≡ refused_line word.now (commands.refusal_for fault.now) (commands.cause_of fault.now)) }
{
    let refusal = refusal_for(fault);
    refused_text(alloc, word, &refusal, cause_of(fault))
}

// Makes a copy of the store in a file, and says so.
fn backup_text<S: Alter, C: System>(
    alloc: Global,
    engine: &mut Engine<S>,
    system: &C,
    name: &str,
) -> Result<Vec<u8>, RunFault>
    ensures made { IfOk result (λ text. IsUsable S.Store engine.new.connection
        → (history : History) → EngineRepresents S.Store history engine.old
        → (bytes : List ℕ) × IsFileOf history bytes × C.made name.now bytes
        × (text.items ≡ done_line Backup)) }
    ensures fault { IfErr result IsBackupFault }
    ensures same { IsUsable S.Store engine.new.connection
        → (history : History) → EngineRepresents S.Store history engine.old
        → EngineRepresents S.Store history engine.new }
    ensures usable { WasUsable S.Store engine.old.connection engine.new.connection }
    ensures others { SparesOthers S.Store engine.old.connection engine.new.connection }
{
    // The record before the copy: if there is no memory for it, there is no copy.
    let text = match done_text(alloc, engine, SessionCommand::Backup) {
        Ok(text) => text,
        Err(refusal) => return Err(RunFault::Script(refusal)),
    };
    match back_up(system, alloc, engine, name) {
        Ok(_) => Ok(text),
        Err(fault) => Err(fault),
    }
}

// The answer to the line of a command that makes a copy.
fn answer_to_backup<S: Alter, C: System>(
    alloc: Global,
    engine: &mut Engine<S>,
    system: &C,
    line: &[u8],
) -> Result<Vec<u8>, AllocError>
    requires { commands.asked_in line.now ≡ Some Backup }
    ensures told { IfOk result (λ text. IsUsable S.Store engine.new.connection
        → (history : History) → EngineRepresents S.Store history engine.old
        → IsAnswer C.made history line.now text.items) }
    ensures same { IsUsable S.Store engine.new.connection
        → (history : History) → EngineRepresents S.Store history engine.old
        → EngineRepresents S.Store history engine.new }
    ensures usable { WasUsable S.Store engine.old.connection engine.new.connection }
    ensures others { SparesOthers S.Store engine.old.connection engine.new.connection }
{
    let word = word_in(line);
    let name = match str::from_utf8(file_in(line)) {
        Ok(name) => name,
        Err(_) => return refused_text(alloc, word, &Refusal::NotUtf8, ""),
    };
    match backup_text(alloc, engine, system, name) {
        Ok(text) => Ok(text),
        Err(fault) => stopped_text(alloc, word, &fault),
    }
}

/// The answer to a line that begins with a dot, from these bytes after the dot. Nothing is changed.
pub(crate) fn answer_to_line<S: Alter, C: System>(
    alloc: Global,
    engine: &mut Engine<S>,
    system: &C,
    line: &[u8],
) -> Result<Vec<u8>, AllocError>
    ensures told { IfOk result (λ text. IsUsable S.Store engine.new.connection
        → (history : History) → EngineRepresents S.Store history engine.old
        → IsAnswer C.made history line.now text.items) }
    ensures same { IsUsable S.Store engine.new.connection
        → (history : History) → EngineRepresents S.Store history engine.old
        → EngineRepresents S.Store history engine.new }
    ensures usable { WasUsable S.Store engine.old.connection engine.new.connection }
    ensures others { SparesOthers S.Store engine.old.connection engine.new.connection }
{
    let word = word_in(line);
    let Some(command) = asked_in(line) else {
        return refused_text(alloc, word, &Refusal::Syntax, "");
    };
    if command.makes_file() {
        return answer_to_backup(alloc, engine, system, line);
    }
    match done_text(alloc, engine, command) {
        Ok(text) => Ok(text),
        Err(refusal) => refused_text(alloc, word, &refusal, ""),
    }
}
