//! The texts of records, gathered on their way to a writer.

ghost use Rattle.std.specs.Prelude.{◌≡◌, ◌≤◌, ◌++◌, [], IfErr, OnOk, false, length, true};
ghost use Rattle.std.specs.Io.KnownBytes.{Appends, append_known};
ghost use Rattle.csv.specs.Writing.{default_writer, fields_written, has_written, with_flexible};
ghost use Rattle.csv.specs.Writing.{writer_pending, writer_setup, writer_under};
ghost use Rattle.statement_reports.specs.Report.{MayFail, record_text};

use crate::fault::ReportFault;
use crate::record::Record;
use crate::writer::{ReportWriter, WriteRefused};
use csv::{Writer, WriterBuilder};
use std::alloc::Global;
use std::marker::Model;
use std::mem;

/// The number of bytes that are gathered before the writer gets them.
const CAPACITY: usize = 65_536;

/// The texts that the writer has not got yet, which contracts see as their bytes.
#[derive(Drop)]
pub(crate) struct ReportBuffer {
    // The csv writer, which keeps some KiB to itself before the vector gets them.
    texts: Writer<Vec<u8>>,
}

impl Model for ReportBuffer {
    ghost use Rattle.std.specs.Prelude.{◌≡◌, ◌++◌, ℕ, List, false, true};
    ghost use Rattle.csv.specs.Writing.{default_writer, fields_written, has_written, with_flexible};
    ghost use Rattle.csv.specs.Writing.{writer_pending, writer_setup, writer_under};

    ghost Value = { List ℕ };

    ghost view = { λ b. (writer_under b.texts).items ++ writer_pending b.texts };

    ghost invariant = { λ b. (writer_setup b.texts ≡ with_flexible default_writer true)
        × (fields_written b.texts ≡ 0) × (has_written b.texts ≡ false) };
}

// A writer of records into this memory.
fn records_into(memory: Vec<u8>) -> Writer<Vec<u8>>
    ensures under { writer_under result ≡ memory }
    ensures pending { writer_pending result ≡ [] }
    ensures setup { writer_setup result ≡ with_flexible default_writer true }
    ensures fields { fields_written result ≡ 0 }
    ensures fresh { has_written result ≡ false }
{
    WriterBuilder::new().flexible(true).from_writer(memory)
}

// Gives the writer these bytes.
fn put_bytes<W: ReportWriter>(out: &mut W, bytes: &[u8]) -> Result<(), ReportFault>
    ensures ok { OnOk result (Appends (W.contents out.old) (W.contents out.new) bytes.now) }
    ensures err { IfErr result (MayFail (W.has_failed out.new)) }
{
    match out.put(bytes) {
        Ok(()) => Ok(()),
        Err(WriteRefused) => Err(ReportFault::Write),
    }
}

impl ReportBuffer {
    /// No text yet.
    pub(crate) fn new(alloc: Global) -> ReportBuffer
        ensures { result ≡ [] }
    {
        ReportBuffer {
            texts: records_into(Vec::new(alloc)),
        }
    }

    // Adds the text of a record. After a fault the buffer is empty.
    fn add(&mut self, alloc: Global, line: &Record) -> Result<(), ReportFault>
        requires { 2 ≤ length line.now }
        ensures ok { OnOk result (self.new ≡ self.old ++ record_text line.now) }
        ensures err { IfErr result (λ e. e ≡ ReportFault.Memory) }
    {
        if let Ok(()) = self.texts.write_byte_record(line.fields()) {
            return Ok(());
        }
        self.texts = records_into(Vec::new(alloc));
        Err(ReportFault::Memory)
    }

    // Writes the texts out, and keeps their memory for the next ones.
    #[inline(never)]
    fn write_out<W: ReportWriter>(&mut self, alloc: Global, out: &mut W) -> Result<(), ReportFault>
        ensures written { OnOk result
            (Appends (W.contents out.old) (W.contents out.new) self.old) }
        ensures empty { OnOk result (self.new ≡ []) }
        ensures err { IfErr result (MayFail (W.has_failed out.new)) }
    {
        let texts = mem::replace(&mut self.texts, records_into(Vec::new(alloc)));
        let Ok(mut memory) = texts.into_inner() else {
            return Err(ReportFault::Memory);
        };
        let written = put_bytes(out, memory.as_slice());
        memory.clear();
        self.texts = records_into(memory);
        written
    }

    /// Adds the text of a record, and writes the texts out if there are enough of them.
    pub(crate) fn write<W: ReportWriter>(
        &mut self,
        alloc: Global,
        out: &mut W,
        line: &Record,
    ) -> Result<(), ReportFault>
        requires { 2 ≤ length line.now }
        ensures ok { OnOk result
            (Appends (append_known (W.contents out.old) self.old)
            (append_known (W.contents out.new) self.new) (record_text line.now)) }
        ensures err { IfErr result (MayFail (W.has_failed out.new)) }
    {
        self.add(alloc, line)?;
        if self.texts.get_ref().len() >= CAPACITY {
            return self.write_out(alloc, out);
        }
        Ok(())
    }

    /// Writes out the texts that are left.
    pub(crate) fn finish<W: ReportWriter>(self, out: &mut W) -> Result<(), ReportFault>
        ensures ok { OnOk result (Appends (W.contents out.old) (W.contents out.new) self) }
        ensures err { IfErr result (MayFail (W.has_failed out.new)) }
    {
        match self.texts.into_inner() {
            Ok(memory) => put_bytes(out, memory.as_slice()),
            Err(_) => Err(ReportFault::Memory),
        }
    }
}
