//! The records of one statement, which the writer gets at once: a report in parts.

ghost use Rattle.std.specs.Prelude.{IfErr, OnOk};
ghost use Rattle.std.specs.Io.KnownBytes.{Appends};
ghost use Rattle.statement_reports.specs.AuditedReport.{entry_text};
ghost use Rattle.statement_reports.specs.Report.{MayFail, text_of};

use crate::audited::write_entry;
use crate::buffer::ReportBuffer;
use crate::entry::Entry;
use crate::fault::ReportFault;
use crate::outcome::Outcome;
use crate::record::Record;
use crate::report::write_result;
use crate::writer::ReportWriter;
use period_core::Refusal;
use std::alloc::Global;

/// Writes the records of the statement of a number as they are in a report, in parts of some 64
/// KiB, and keeps none back. After a fault the writer may hold a part of them.
pub fn write_statement<W: ReportWriter>(
    alloc: Global,
    out: &mut W,
    number: u64,
    given: &Result<Outcome, Refusal>,
) -> Result<(), ReportFault>
    ensures ok { OnOk result
        (Appends (W.contents out.old) (W.contents out.new) (text_of number given.now)) }
    ensures err { IfErr result (MayFail (W.has_failed out.new)) }
{
    let mut line = Record::new(alloc);
    let mut buffer = ReportBuffer::new(alloc);
    write_result(alloc, &mut line, &mut buffer, out, number, given)?;
    buffer.finish(out)
}

/// Writes the result of a statement in an audited report: after an answer the verdict of its audit.
pub fn write_audited_statement<W: ReportWriter>(
    alloc: Global,
    out: &mut W,
    number: u64,
    entry: &Entry,
) -> Result<(), ReportFault>
    ensures ok { OnOk result
        (Appends (W.contents out.old) (W.contents out.new) (entry_text number entry.now)) }
    ensures err { IfErr result (MayFail (W.has_failed out.new)) }
{
    let mut line = Record::new(alloc);
    let mut buffer = ReportBuffer::new(alloc);
    write_entry(alloc, &mut line, &mut buffer, out, number, entry)?;
    buffer.finish(out)
}
