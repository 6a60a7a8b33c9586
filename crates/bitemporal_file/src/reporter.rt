//! The writer of a run's report in parts: the records of a statement as soon as it is done.

ghost use Rattle.std.specs.Prelude.{◌≡◌, ◌≤◌, ◌+◌, ℕ, Err, IfErr, IfSome, IsSome, List, None};
ghost use Rattle.std.specs.Prelude.{OnOk, false, true};
ghost use Rattle.std.specs.Io.KnownBytes.{Appends};
ghost use Rattle.period_core.specs.declared.refusal.Refusal.{Refusal};
ghost use Rattle.statement_reports.specs.AuditedReport.{entry_text};
ghost use Rattle.statement_reports.specs.Report.{text_of};
ghost use Rattle.bitemporal_file.specs.Reporting.{IsReportFault, IsUnused};
ghost use Rattle.bitemporal_file.specs.Reporting.{ReceivesResult, entry_status};
ghost use Rattle.bitemporal_file.specs.Reporting.{refused_entry, result_status, timed_refusal};
ghost use Rattle.script_engine.specs.declared.script.timed.Timed.{Timed as TimedModel};

use crate::notes::Notes;
use command_line::{RunFault, Tracked, has_failed};
use period_core::{Moment, Refusal};
use script_engine::{
    Entry, Listener, Outcome, ReportFault, Timed, write_audited_statement, write_statement,
};
use std::alloc::Global;
use std::io::Write;

/// A value that is reported of a statement.
pub(crate) trait Reported {
    /// The records of the statement of a number.
    ghost text: { ℕ → Self → List ℕ };

    /// The exit status for its sake.
    ghost status_of: { Self → ℕ };

    /// The number of versions that it forgets.
    ghost forgotten_of: { Self → ℕ };

    /// The value that is reported of a statement that is refused as it is read.
    ghost refused: { Refusal → Self };

    /// Writes its records, under the number of its statement.
    fn write_records<W: Write>(
        &self,
        alloc: Global,
        out: &mut W,
        number: u64,
    ) -> Result<(), ReportFault>
        ensures { OnOk result
            (Appends (W.contents out.old) (W.contents out.new) (text number self.now)) };

    /// The exit status for its sake: 3 if its audit did not agree or was refused, 1 if the
    /// statement was refused, else 0.
    fn status(&self) -> u8
        ensures value { result ≡ status_of self.now }
        ensures low { result ≤ 3 };

    /// The number of versions that it forgets.
    fn forgotten(&self) -> u64
        ensures { result ≡ forgotten_of self.now };

    /// Of a statement that is refused as it is read.
    fn of_refusal(refusal: Refusal) -> Self
        ensures { result ≡ refused refusal };
}

impl Reported for Result<Outcome, Refusal> {
    ghost text = { text_of };

    ghost status_of = { result_status };

    ghost forgotten_of = { λ result. 0 };

    ghost refused = { λ refusal. Err refusal };

    fn write_records<W: Write>(
        &self,
        alloc: Global,
        out: &mut W,
        number: u64,
    ) -> Result<(), ReportFault> {
        write_statement(alloc, out, number, self)
    }

    fn status(&self) -> u8 {
        if self.is_err() { 1 } else { 0 }
    }

    fn forgotten(&self) -> u64 {
        0
    }

    fn of_refusal(refusal: Refusal) -> Result<Outcome, Refusal> {
        Err(refusal)
    }
}

impl Reported for Entry {
    ghost text = { entry_text };

    ghost status_of = { entry_status };

    ghost forgotten_of = { λ entry. 0 };

    ghost refused = { refused_entry };

    fn write_records<W: Write>(
        &self,
        alloc: Global,
        out: &mut W,
        number: u64,
    ) -> Result<(), ReportFault> {
        write_audited_statement(alloc, out, number, self)
    }

    fn status(&self) -> u8 {
        if has_failed(&self.audit) {
            3
        } else if self.result.is_err() {
            1
        } else {
            0
        }
    }

    fn forgotten(&self) -> u64 {
        0
    }

    fn of_refusal(refusal: Refusal) -> Entry {
        Entry {
            result: Err(refusal),
            audit: None,
        }
    }
}

impl<K: Reported> Reported for Timed<K> {
    ghost text = { λ number (timed : TimedModel K). K.text number timed.kept };

    ghost status_of = { λ (timed : TimedModel K). K.status_of timed.kept };

    ghost forgotten_of = { λ (timed : TimedModel K). K.forgotten_of timed.kept };

    ghost refused = { timed_refusal K.refused };

    fn write_records<W: Write>(
        &self,
        alloc: Global,
        out: &mut W,
        number: u64,
    ) -> Result<(), ReportFault> {
        self.kept.write_records(alloc, out, number)
    }

    fn status(&self) -> u8 {
        self.kept.status()
    }

    fn forgotten(&self) -> u64 {
        self.kept.forgotten()
    }

    fn of_refusal(refusal: Refusal) -> Timed<K> {
        Timed {
            time: Moment::first(),
            kept: K::of_refusal(refusal),
        }
    }
}

/// A report that is written as the run goes, with its notes on standard error meanwhile, and what
/// the run has come to.
#[derive(Drop)]
pub struct Reporter<W, E> {
    pub(crate) alloc: Global,
    pub(crate) out: W,
    /// The run ends after a statement whose status is not 0.
    pub(crate) stops: bool,
    /// The number of the statement that is reported next.
    pub(crate) next: u64,
    /// The greatest of the statements' statuses.
    pub(crate) worst: u8,
    /// Why records were not written.
    pub(crate) fault: Option<RunFault>,
    /// No result was received yet.
    pub(crate) is_unused: bool,
    /// Standard error, and its notes.
    pub(crate) notes: Notes<E>,
}

impl<W, E> Reporter<W, E> {
    /// A report of nothing yet, whose first statement has the number 1.
    pub fn new(alloc: Global, out: W, err: Tracked<E>) -> Reporter<W, E>
        ensures out { result.out ≡ out }
        ensures err { result.notes.err ≡ err }
        ensures unused { IsUnused result }
    {
        Reporter {
            alloc,
            out,
            stops: false,
            next: 1,
            worst: 0,
            fault: None,
            is_unused: true,
            notes: Notes::new(err),
        }
    }
}

impl<W: Write, E> Reporter<W, E> {
    // Writes the records of the next statement, and has them flushed. A report has no number for
    // a statement beyond 2 to the power of 64.
    fn put<K: Reported>(&mut self, kept: &K) -> Result<(), RunFault>
        ensures written { OnOk result (Appends (W.contents self.old.out)
            (W.contents self.new.out) (K.text self.old.next kept.now)) }
        ensures next { OnOk result (self.new.next ≡ self.old.next + 1) }
        ensures fault { IfErr result IsReportFault }
        ensures same { self.new ≡ record self.old { out = self.new.out; next = self.new.next } }
    {
        let Some(next) = self.next.checked_add(1) else {
            return Err(RunFault::Write);
        };
        kept.write_records(self.alloc, &mut self.out, self.next)?;
        match self.out.flush() {
            Ok(()) => {
                self.next = next;
                Ok(())
            }
            Err(_) => Err(RunFault::Write),
        }
    }
}

impl<W: Write, E> Reporter<W, E> {
    // Writes a text, and has it flushed.
    fn write_text(&mut self, text: &[u8]) -> Result<(), RunFault>
        ensures written { OnOk result
            (Appends (W.contents self.old.out) (W.contents self.new.out) text.now) }
        ensures fault { IfErr result IsReportFault }
        ensures same { self.new ≡ record self.old { out = self.new.out } }
    {
        match self.out.write_all(text) {
            Ok(()) => match self.out.flush() {
                Ok(()) => Ok(()),
                Err(_) => Err(RunFault::Write),
            },
            Err(_) => Err(RunFault::Write),
        }
    }

    /// Writes the answer to a command; nothing if there is no memory for it. Keeps the fault,
    /// and says whether there is none.
    pub(crate) fn tell(&mut self, text: Option<&[u8]>) -> bool
        requires { self.old.fault ≡ None }
        ensures written { result ≡ true → IfSome text.entry (λ bytes.
            Appends (W.contents self.old.out) (W.contents self.new.out) bytes.now) }
        ensures some { result ≡ true → IsSome text.entry × (self.new.fault ≡ None) }
        ensures fault { result ≡ false → IsSome self.new.fault
            × IfSome self.new.fault IsReportFault }
        ensures same { self.new ≡ record self.old { out = self.new.out; fault = self.new.fault } }
    {
        let Some(bytes) = text else {
            self.fault = Some(RunFault::Memory);
            return false;
        };
        match self.write_text(bytes) {
            Ok(()) => return true,
            Err(cause) => self.fault = Some(cause),
        }
        false
    }
}

impl<W: Write, E: Write, K: Reported + Drop> Listener<K> for Reporter<W, E> {
    ghost hears = { λ old _ kept goes_on new.
        ReceivesResult W.contents E.contents K.text K.status_of K.forgotten_of
        old kept goes_on new };

    fn hear(&mut self, _number: u64, kept: K) -> bool {
        self.is_unused = false;
        let status = kept.status();
        self.worst = self.worst.max(status);
        let number = self.next;
        let written = self.put(&kept);
        self.notes.add(self.alloc, number, kept.forgotten());
        drop(kept);
        match written {
            Ok(()) => !self.stops || status == 0,
            Err(fault) => {
                self.fault = Some(fault);
                false
            }
        }
    }
}
