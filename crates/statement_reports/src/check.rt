//! The report of a check: the records of the refused statements, and how many there are.

ghost use Rattle.std.specs.Prelude.{◌≡◌, IfErr, OnOk, count_by, is_err};
ghost use Rattle.std.specs.Io.KnownBytes.{Appends, append_known};
ghost use Rattle.statement_reports.specs.CheckReport.{check_text, checked_record, refusal_text};
ghost use Rattle.statement_reports.specs.Report.{MayFail};

use crate::buffer::ReportBuffer;
use crate::fault::ReportFault;
use crate::record::Record;
use crate::report::fill_refused;
use crate::writer::ReportWriter;
use period_core::Refusal;
use std::alloc::Global;

// The record of a statement that is refused; of another, nothing.
fn write_refusal<W: ReportWriter>(
    alloc: Global,
    line: &mut Record,
    buffer: &mut ReportBuffer,
    out: &mut W,
    number: u64,
    entry: &Result<(), Refusal>,
) -> Result<(), ReportFault>
    ensures ok { OnOk result
        (Appends (append_known (W.contents out.old) buffer.old)
        (append_known (W.contents out.new) buffer.new) (refusal_text number entry.now)) }
    ensures err { IfErr result (MayFail (W.has_failed out.new)) }
{
    if let Err(refusal) = entry {
        fill_refused(line, number, refusal)?;
        buffer.write(alloc, out, line)?;
    }
    Ok(())
}

fn refused_count(results: &[Result<(), Refusal>]) -> u64
    ensures { result ≡ count_by is_err results.now }
{
    let mut count = 0;
    for entry in results {
        if entry.is_err() {
            count += 1;
        }
    }
    count
}

// Fills in the number of statements, and of those that are refused.
fn fill_counts(line: &mut Record, results: &[Result<(), Refusal>]) -> Result<(), ReportFault>
    ensures ok { OnOk result (line.new ≡ checked_record results.now) }
    ensures err { IfErr result (λ e. e ≡ ReportFault.Memory) }
{
    line.start("checked")?;
    line.push_number(results.len() as u64)?;
    line.push_number(refused_count(results))
}

/// Writes the report of a check: the records of the refused statements, numbered from 1 among all,
/// and then how many there are, in parts of some 64 KiB, each by one `write_all`. After a fault the
/// writer may hold a part of the report.
pub fn write_check<W: ReportWriter>(
    alloc: Global,
    out: &mut W,
    results: &[Result<(), Refusal>],
) -> Result<(), ReportFault>
    ensures ok { OnOk result
        (Appends (W.contents out.old) (W.contents out.new) (check_text results.now)) }
    ensures err { IfErr result (MayFail (W.has_failed out.new)) }
{
    let mut line = Record::new(alloc);
    let mut buffer = ReportBuffer::new(alloc);
    for (i, entry) in results.iter().enumerate() {
        write_refusal(alloc, &mut line, &mut buffer, out, i as u64 + 1, entry)?;
    }
    fill_counts(&mut line, results)?;
    buffer.write(alloc, out, &line)?;
    buffer.finish(out)
}
