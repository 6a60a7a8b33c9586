//! The report: for each statement, in order, the records of what it gave.

ghost use Rattle.std.specs.Prelude.{◌≡◌, ◌++◌, IfErr, Ok, OnOk};
ghost use Rattle.std.specs.Io.KnownBytes.{Appends, append_known};
ghost use Rattle.statement_reports.specs.Report.{MayFail, report, text_of};
ghost use Rattle.statement_reports.specs.Report.{answer_record, columns_record, done_record};
ghost use Rattle.statement_reports.specs.Report.{names_record, refused_record, row_fields};
ghost use Rattle.statement_reports.specs.Report.{versions_record};

use crate::buffer::ReportBuffer;
use crate::fault::ReportFault;
use crate::outcome::{Outcome, VersionColumn, VersionList, Word};
use crate::record::Record;
use crate::writer::ReportWriter;
use period_core::{Answer, PeriodRow, Refusal, Text, VersionRow, Witness};
use std::alloc::Global;

fn fill_done(line: &mut Record, number: u64, word: Word, count: u64) -> Result<(), ReportFault>
    ensures ok { OnOk result (line.new ≡ done_record number word count) }
    ensures err { IfErr result (λ e. e ≡ ReportFault.Memory) }
{
    line.start("done")?;
    line.push_number(number)?;
    line.push(word.name().as_bytes())?;
    line.push_number(count)
}

pub(crate) fn fill_refused(
    line: &mut Record,
    number: u64,
    refusal: &Refusal,
) -> Result<(), ReportFault>
    ensures ok { OnOk result (line.new ≡ refused_record number refusal.now) }
    ensures err { IfErr result (λ e. e ≡ ReportFault.Memory) }
{
    line.start("refused")?;
    line.push_number(number)?;
    line.push_number(u64::from(refusal.code()))?;
    line.push(refusal.name().as_bytes())?;
    match refusal {
        Refusal::KeyOverlap(day) | Refusal::PeriodReference(day) => line.push_day(*day),
        _ => line.push(b""),
    }
}

// Fills in the number of value columns and of rows that follow.
fn fill_head(line: &mut Record, number: u64, answer: &Answer) -> Result<(), ReportFault>
    ensures ok { OnOk result (line.new ≡ answer_record number answer.now) }
    ensures err { IfErr result (λ e. e ≡ ReportFault.Memory) }
{
    line.start("answer")?;
    line.push_number(number)?;
    line.push_number(answer.columns.len() as u64)?;
    line.push_number(answer.rows.len() as u64)
}

// The names of the columns.
fn fill_columns(line: &mut Record, number: u64, columns: &[Text]) -> Result<(), ReportFault>
    ensures ok { OnOk result (line.new ≡ columns_record number columns.now) }
    ensures err { IfErr result (λ e. e ≡ ReportFault.Memory) }
{
    line.start("columns")?;
    line.push_number(number)?;
    line.push_texts(columns)?;
    line.push(b"valid_from")?;
    line.push(b"valid_to")?;
    line.push(b"held")?;
    line.push(b"absent")
}

// Adds the fields of a row and its witness.
fn push_row(line: &mut Record, row: &PeriodRow, witness: &Witness) -> Result<(), ReportFault>
    ensures ok { OnOk result (line.new ≡ line.old ++ row_fields (row.now, witness.now)) }
    ensures err { IfErr result (λ e. e ≡ ReportFault.Memory) }
{
    line.push_values(row.values.as_slice())?;
    line.push_day(row.period.start())?;
    line.push_day(row.period.end())?;
    line.push_day(witness.held)?;
    line.push_absent(witness.absent)
}

fn write_answer<W: ReportWriter>(
    alloc: Global,
    line: &mut Record,
    buffer: &mut ReportBuffer,
    out: &mut W,
    number: u64,
    answer: &Answer,
) -> Result<(), ReportFault>
    ensures ok { OnOk result
        (Appends (append_known (W.contents out.old) buffer.old)
        (append_known (W.contents out.new) buffer.new)
        (text_of number (Ok (Outcome.Answer answer.now)))) }
    ensures err { IfErr result (MayFail (W.has_failed out.new)) }
{
    fill_head(line, number, answer)?;
    buffer.write(alloc, out, line)?;
    fill_columns(line, number, answer.columns.as_slice())?;
    buffer.write(alloc, out, line)?;
    // Each row keeps these two fields.
    line.start("row")?;
    line.push_number(number)?;
    let witnesses = answer.witnesses.as_slice();
    for (row, witness) in answer.rows.as_slice().iter().zip(witnesses) {
        push_row(line, row, witness)?;
        buffer.write(alloc, out, line)?;
        line.truncate(2);
    }
    Ok(())
}

// Fills in the number of columns and of versions that follow.
fn fill_versions_head(line: &mut Record, number: u64, list: &VersionList) -> Result<(), ReportFault>
    ensures ok { OnOk result (line.new ≡ versions_record number list.now) }
    ensures err { IfErr result (λ e. e ≡ ReportFault.Memory) }
{
    line.start("versions")?;
    line.push_number(number)?;
    line.push_number(list.columns.len() as u64)?;
    line.push_number(list.rows.len() as u64)
}

// The names of the columns.
fn fill_names(line: &mut Record, number: u64, columns: &[VersionColumn]) -> Result<(), ReportFault>
    ensures ok { OnOk result (line.new ≡ names_record number columns.now) }
    ensures err { IfErr result (λ e. e ≡ ReportFault.Memory) }
{
    line.start("columns")?;
    line.push_number(number)?;
    line.push_names(columns)
}

fn write_versions<W: ReportWriter>(
    alloc: Global,
    line: &mut Record,
    buffer: &mut ReportBuffer,
    out: &mut W,
    number: u64,
    list: &VersionList,
) -> Result<(), ReportFault>
    ensures ok { OnOk result
        (Appends (append_known (W.contents out.old) buffer.old)
        (append_known (W.contents out.new) buffer.new)
        (text_of number (Ok (Outcome.Versions list.now)))) }
    ensures err { IfErr result (MayFail (W.has_failed out.new)) }
{
    fill_versions_head(line, number, list)?;
    buffer.write(alloc, out, line)?;
    let columns = list.columns.as_slice();
    fill_names(line, number, columns)?;
    buffer.write(alloc, out, line)?;
    // Each version keeps these two fields.
    line.start("version")?;
    line.push_number(number)?;
    let rows = list.rows.as_slice();
    for version in rows {
        line.push_cells(columns, version)?;
        buffer.write(alloc, out, line)?;
        line.truncate(2);
    }
    Ok(())
}

pub(crate) fn write_result<W: ReportWriter>(
    alloc: Global,
    line: &mut Record,
    buffer: &mut ReportBuffer,
    out: &mut W,
    number: u64,
    entry: &Result<Outcome, Refusal>,
) -> Result<(), ReportFault>
    ensures ok { OnOk result
        (Appends (append_known (W.contents out.old) buffer.old)
        (append_known (W.contents out.new) buffer.new) (text_of number entry.now)) }
    ensures err { IfErr result (MayFail (W.has_failed out.new)) }
{
    match entry {
        Ok(Outcome::Done(word, count)) => fill_done(line, number, *word, *count)?,
        Ok(Outcome::Answer(answer)) => {
            return write_answer(alloc, line, buffer, out, number, answer);
        }
        Ok(Outcome::Versions(list)) => {
            return write_versions(alloc, line, buffer, out, number, list);
        }
        Err(refusal) => fill_refused(line, number, refusal)?,
    }
    buffer.write(alloc, out, line)
}

/// Writes the report of the results, numbered from 1, in parts of some 64 KiB, each by one
/// `write_all`. After a fault the writer may hold a part of the report.
pub fn write_report<W: ReportWriter>(
    alloc: Global,
    out: &mut W,
    results: &[Result<Outcome, Refusal>],
) -> Result<(), ReportFault>
    ensures ok { OnOk result
        (Appends (W.contents out.old) (W.contents out.new) (report results.now)) }
    ensures err { IfErr result (MayFail (W.has_failed out.new)) }
{
    let mut line = Record::new(alloc);
    let mut buffer = ReportBuffer::new(alloc);
    for (i, entry) in results.iter().enumerate() {
        write_result(alloc, &mut line, &mut buffer, out, i as u64 + 1, entry)?;
    }
    buffer.finish(out)
}
