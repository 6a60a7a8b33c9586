//! The report of an audited run: the records of each result, and after the records of an answer the
//! record of its audit.

ghost use Rattle.std.specs.Prelude.{◌≡◌, ◌++◌, IfErr, OnOk};
ghost use Rattle.std.specs.Io.KnownBytes.{Appends, append_known};
ghost use Rattle.statement_reports.specs.AuditedReport.{audit_record};
ghost use Rattle.statement_reports.specs.AuditedReport.{audit_text, audited_report, entry_text};
ghost use Rattle.statement_reports.specs.AuditedReport.{verdict_fields};
ghost use Rattle.statement_reports.specs.Report.{MayFail};

use crate::buffer::ReportBuffer;
use crate::entry::Entry;
use crate::fault::ReportFault;
use crate::record::Record;
use crate::report::write_result;
use crate::writer::ReportWriter;
use period_core::Refusal;
use snapshot_audit::Verdict;
use std::alloc::Global;

// The word of a verdict, and the number or the day that it carries.
fn push_verdict(line: &mut Record, verdict: Verdict) -> Result<(), ReportFault>
    ensures ok { OnOk result (line.new ≡ line.old ++ verdict_fields verdict) }
    ensures err { IfErr result (λ e. e ≡ ReportFault.Memory) }
{
    match verdict {
        Verdict::Agrees(days) => {
            line.push(b"agrees")?;
            line.push_number(days as u64)
        }
        Verdict::Differs(day) => {
            line.push(b"differs")?;
            line.push_day(day)
        }
        Verdict::BadWitness(row) => {
            line.push(b"badwitness")?;
            line.push_number(row as u64)
        }
    }
}

fn fill_audit(
    line: &mut Record,
    number: u64,
    audit: &Result<Verdict, Refusal>,
) -> Result<(), ReportFault>
    ensures ok { OnOk result (line.new ≡ audit_record number audit.now) }
    ensures err { IfErr result (λ e. e ≡ ReportFault.Memory) }
{
    line.start("audit")?;
    line.push_number(number)?;
    match audit {
        Ok(verdict) => push_verdict(line, *verdict),
        Err(refusal) => {
            line.push(b"refused")?;
            line.push_number(u64::from(refusal.code()))
        }
    }
}

// The record of an audit, if there is one.
fn write_audit<W: ReportWriter>(
    alloc: Global,
    line: &mut Record,
    buffer: &mut ReportBuffer,
    out: &mut W,
    number: u64,
    audit: &Option<Result<Verdict, Refusal>>,
) -> Result<(), ReportFault>
    ensures ok { OnOk result
        (Appends (append_known (W.contents out.old) buffer.old)
        (append_known (W.contents out.new) buffer.new) (audit_text number audit.now)) }
    ensures err { IfErr result (MayFail (W.has_failed out.new)) }
{
    if let Some(audit) = audit {
        fill_audit(line, number, audit)?;
        buffer.write(alloc, out, line)?;
    }
    Ok(())
}

/// The records of an entry.
pub(crate) fn write_entry<W: ReportWriter>(
    alloc: Global,
    line: &mut Record,
    buffer: &mut ReportBuffer,
    out: &mut W,
    number: u64,
    entry: &Entry,
) -> Result<(), ReportFault>
    ensures ok { OnOk result
        (Appends (append_known (W.contents out.old) buffer.old)
        (append_known (W.contents out.new) buffer.new) (entry_text number entry.now)) }
    ensures err { IfErr result (MayFail (W.has_failed out.new)) }
{
    write_result(alloc, line, buffer, out, number, &entry.result)?;
    write_audit(alloc, line, buffer, out, number, &entry.audit)
}

/// Writes the report of the entries, numbered from 1, in parts of some 64 KiB, each by one
/// `write_all`: the report of their results, and after the records of an answer its audit's record.
/// After a fault the writer may hold a part of the report.
pub fn write_audited<W: ReportWriter>(
    alloc: Global,
    out: &mut W,
    entries: &[Entry],
) -> Result<(), ReportFault>
    ensures ok { OnOk result
        (Appends (W.contents out.old) (W.contents out.new) (audited_report entries.now)) }
    ensures err { IfErr result (MayFail (W.has_failed out.new)) }
{
    let mut line = Record::new(alloc);
    let mut buffer = ReportBuffer::new(alloc);
    for (i, entry) in entries.iter().enumerate() {
        write_entry(alloc, &mut line, &mut buffer, out, i as u64 + 1, entry)?;
    }
    buffer.finish(out)
}
