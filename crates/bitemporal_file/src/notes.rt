//! Notes on standard error of versions that changes forget: those that a change ends at the very
//! moment at which they began, so that nothing of them is kept.

ghost use Rattle.std.specs.Prelude.{◌≡◌, IfOk, Some, true};
ghost use Rattle.std.specs.String.{string_bytes};
ghost use Rattle.bitemporal_file.specs.Notes as notes;
ghost use Rattle.bitemporal_file.specs.Notes.{GetsNote, TellsFirst, TellsSum, counted};
ghost use Rattle.bitemporal_file.specs.Notes.{line_without_numbers, no_tally};
ghost use Rattle.bitemporal_file.specs.Reporting.{noted_refusal};
ghost use Rattle.bitemporal_file.specs.declared.notes.Note.TheVariants.{First, Sum};
ghost use Rattle.script_engine.specs.declared.script.noted.Noted.{Noted as NotedModel};

use crate::reporter::Reported;
use command_line::{Tracked, write_text};
use period_core::Refusal;
use script_engine::{Noted, ReportFault};
use std::alloc::{AllocError, Global};
use std::io::Write;

impl<K: Reported> Reported for Noted<K> {
    ghost text = { λ number (noted : NotedModel K). K.text number noted.kept };

    ghost status_of = { λ (noted : NotedModel K). K.status_of noted.kept };

    ghost forgotten_of = { λ (noted : NotedModel K). noted.forgotten };

    ghost refused = { noted_refusal K.refused };

    fn write_records<W: Write>(
        &self,
        alloc: Global,
        out: &mut W,
        number: u64,
    ) -> Result<(), ReportFault> {
        self.kept.write_records(alloc, out, number)
    }

    fn status(&self) -> u8 {
        self.kept.status()
    }

    fn forgotten(&self) -> u64 {
        self.forgotten
    }

    fn of_refusal(refusal: Refusal) -> Noted<K> {
        Noted {
            kept: K::of_refusal(refusal),
            forgotten: 0,
        }
    }
}

/// A statement that forgot versions: its number, and how many they are.
#[derive(Clone, Copy)]
pub(crate) struct Forgetting {
    pub(crate) statement: u64,
    pub(crate) versions: u64,
}

/// The first statement that forgot versions, and how many all statements forgot.
#[derive(Clone, Copy)]
pub(crate) struct Tally {
    pub(crate) first: Option<Forgetting>,
    pub(crate) forgotten: u64,
}

/// A line on standard error.
#[derive(Clone, Copy)]
pub(crate) enum Note {
    /// Of the first statement that forgot versions, as soon as it is run.
    First(Forgetting),
    /// Of the number of all that were forgotten, at the end of a run.
    Sum(u64),
}

// The line of the first statement that forgot versions.
fn first_line(alloc: Global, first: Forgetting) -> Result<String, AllocError>
    ensures { IfOk result (λ line. string_bytes line ≡ notes.line_of (First first)) }
{
    let number = first.statement;
    let count = first.versions;
    let what = "versions of this very moment, replaced or deleted and not kept";
    format!(in alloc; "bitemporal_file: statement {number}: {what}: {count}\n")
}

// The line of the sum.
fn sum_line(alloc: Global, count: u64) -> Result<String, AllocError>
    ensures { IfOk result (λ line. string_bytes line ≡ notes.line_of (Sum count)) }
{
    let what = "versions replaced or deleted at the moment of their recording, not kept";
    format!(in alloc; "bitemporal_file: {what}: {count} (an AT between the changes keeps them)\n")
}

// The line of a note.
fn line_of(alloc: Global, note: Note) -> Result<String, AllocError>
    ensures { IfOk result (λ line. string_bytes line ≡ notes.line_of note) }
{
    match note {
        Note::First(first) => first_line(alloc, first),
        Note::Sum(count) => sum_line(alloc, count),
    }
}

// The line in the place of that of a note if there is no memory for its numbers.
fn ready_line() -> &'static [u8]
    ensures { result.now ≡ line_without_numbers }
{
    b"bitemporal_file: versions were replaced or deleted at the moment of their recording\n"
}

// Writes the line of a note: the whole line, unless a write failed.
fn tell<E: Write>(alloc: Global, err: &mut Tracked<E>, note: Note)
    ensures told { GetsNote err.new.has_failed (E.contents err.old.inner)
        (E.contents err.new.inner) note }
    ensures failed { err.old.has_failed ≡ true → err.new.has_failed ≡ true }
{
    match line_of(alloc, note) {
        Ok(line) => write_text(err, line.as_bytes()),
        Err(_) => write_text(err, ready_line()),
    }
}

/// Standard error, and its notes of versions that statements forgot.
#[derive(Drop)]
pub(crate) struct Notes<E> {
    pub(crate) err: Tracked<E>,
    pub(crate) tally: Tally,
}

impl<E> Notes<E> {
    /// No note is written yet.
    pub(crate) fn new(err: Tracked<E>) -> Notes<E>
        ensures err { result.err ≡ err }
        ensures none { result.tally ≡ no_tally }
    {
        let tally = Tally {
            first: None,
            forgotten: 0,
        };
        Notes { err, tally }
    }
}

impl<E: Write> Notes<E> {
    /// Counts the versions that the statement of a number forgot, and notes them if no statement
    /// before it forgot any.
    pub(crate) fn add(&mut self, alloc: Global, statement: u64, versions: u64)
        ensures tally { self.new.tally ≡ counted self.old.tally statement versions }
        ensures told { TellsFirst E.contents self.old self.new }
    {
        if versions == 0 {
            return;
        }
        if self.tally.first.is_none() {
            let first = Forgetting {
                statement,
                versions,
            };
            self.tally.first = Some(first);
            tell(alloc, &mut self.err, Note::First(first));
        }
        self.tally.forgotten = self.tally.forgotten.saturating_add(versions);
    }

    /// Tells how many versions were forgotten, if any was.
    pub(crate) fn add_up(&mut self, alloc: Global)
        ensures told { TellsSum E.contents self.old self.new }
        ensures failed { self.old.err.has_failed ≡ true → self.new.err.has_failed ≡ true }
    {
        if self.tally.first.is_some() {
            tell(alloc, &mut self.err, Note::Sum(self.tally.forgotten));
        }
    }
}
