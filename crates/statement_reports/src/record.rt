//! One record of the report: its fields.

ghost use Rattle.std.specs.Prelude.{◌≡◌, ◌++◌, ◌∷◌, [], IfErr, OnOk, map, slice_get, take};
ghost use Rattle.std.specs.Fmt.{decimal, signed_decimal};
ghost use Rattle.csv.specs.Records.{fields_of};
ghost use Rattle.statement_reports.specs.Report.{absent_text, cell_text, printed_day};
ghost use Rattle.statement_reports.specs.Report.{printed_moment, value_cell, value_text};
ghost use Rattle.statement_reports.specs.declared.outcome.VersionColumn as any;

use crate::fault::ReportFault;
use crate::outcome::{Cell, VersionColumn};
use csv::ByteRecord;
use itoa::Buffer;
use period_core::{Day, Moment, Text, Value, VersionRow};
use std::alloc::Global;
use std::marker::Model;

/// The fields of one record, which contracts see as their list.
#[derive(Drop)]
pub(crate) struct Record {
    inner: ByteRecord,
}

impl Model for Record {
    ghost use Rattle.std.specs.Prelude.{◌≡◌, ℕ, List, []};
    ghost use Rattle.csv.specs.Records.{fields_of, partial_of};

    ghost Value = { List (List ℕ) };

    ghost view = { λ r. fields_of r.inner };

    ghost invariant = { λ r. partial_of r.inner ≡ [] };
}

impl Record {
    /// A record of no fields.
    pub(crate) fn new(alloc: Global) -> Record
        ensures { result ≡ [] }
    {
        Record {
            inner: ByteRecord::new(alloc),
        }
    }

    /// Leaves the one field that says what kind of record it is.
    pub(crate) fn start(&mut self, kind: &str) -> Result<(), ReportFault>
        ensures ok { OnOk result (self.new ≡ kind.now ∷ []) }
        ensures err { IfErr result (λ e. e ≡ ReportFault.Memory) }
    {
        self.inner.clear();
        self.push(kind.as_bytes())
    }

    /// Leaves at most the first `count` fields.
    pub(crate) fn truncate(&mut self, count: usize)
        ensures { self.new ≡ take count self.old }
    {
        self.inner.truncate(count);
    }

    /// Adds a field. After a fault the record is empty.
    pub(crate) fn push(&mut self, field: &[u8]) -> Result<(), ReportFault>
        ensures ok { OnOk result (self.new ≡ self.old ++ field.now ∷ []) }
        ensures err { IfErr result (λ e. e ≡ ReportFault.Memory) }
    {
        if self.inner.push_field(field).is_err() {
            self.inner.clear();
            return Err(ReportFault::Memory);
        }
        Ok(())
    }

    /// Adds a number in decimal.
    pub(crate) fn push_number(&mut self, number: u64) -> Result<(), ReportFault>
        ensures ok { OnOk result (self.new ≡ self.old ++ decimal number ∷ []) }
        ensures err { IfErr result (λ e. e ≡ ReportFault.Memory) }
    {
        self.push(Buffer::new().format(number).as_bytes())
    }

    /// Adds an integer in decimal, with `-` if it is negative.
    fn push_integer(&mut self, integer: i64) -> Result<(), ReportFault>
        ensures ok { OnOk result (self.new ≡ self.old ++ signed_decimal integer ∷ []) }
        ensures err { IfErr result (λ e. e ≡ ReportFault.Memory) }
    {
        self.push(Buffer::new().format(integer).as_bytes())
    }

    /// Adds a day as YYYY-MM-DD.
    pub(crate) fn push_day(&mut self, day: Day) -> Result<(), ReportFault>
        ensures ok { OnOk result (self.new ≡ self.old ++ printed_day day ∷ []) }
        ensures err { IfErr result (λ e. e ≡ ReportFault.Memory) }
    {
        let mut text = [0; 10];
        day.write_text(&mut text);
        self.push(&text)
    }

    /// Adds a moment as YYYY-MM-DD HH:MM:SS, followed by a point and six digits if it has a
    /// fraction.
    fn push_moment(&mut self, moment: Moment) -> Result<(), ReportFault>
        ensures ok { OnOk result (self.new ≡ self.old ++ printed_moment moment ∷ []) }
        ensures err { IfErr result (λ e. e ≡ ReportFault.Memory) }
    {
        let mut text = [0; 26];
        let length = moment.write_text(&mut text);
        self.push(&text[..length])
    }

    /// Adds a day, or `none` if there is none.
    pub(crate) fn push_absent(&mut self, day: Option<Day>) -> Result<(), ReportFault>
        ensures ok { OnOk result (self.new ≡ self.old ++ absent_text day ∷ []) }
        ensures err { IfErr result (λ e. e ≡ ReportFault.Memory) }
    {
        match day {
            Some(day) => self.push_day(day),
            None => self.push(b"none"),
        }
    }

    /// Adds a value.
    fn push_value(&mut self, value: &Value) -> Result<(), ReportFault>
        ensures ok { OnOk result (self.new ≡ self.old ++ value_text value.now ∷ []) }
        ensures err { IfErr result (λ e. e ≡ ReportFault.Memory) }
    {
        match value {
            Value::Int(integer) => self.push_integer(*integer),
            Value::Text(text) => self.push(text.as_str().as_bytes()),
            Value::Date(day) => self.push_day(*day),
        }
    }

    /// Adds the texts.
    pub(crate) fn push_texts(&mut self, texts: &[Text]) -> Result<(), ReportFault>
        ensures ok { OnOk result (self.new ≡ self.old ++ texts.now) }
        ensures err { IfErr result (λ e. e ≡ ReportFault.Memory) }
    {
        for text in texts {
            self.push(text.as_str().as_bytes())?;
        }
        Ok(())
    }

    /// Adds the values.
    pub(crate) fn push_values(&mut self, values: &[Value]) -> Result<(), ReportFault>
        ensures ok { OnOk result (self.new ≡ self.old ++ map value_text values.now) }
        ensures err { IfErr result (λ e. e ≡ ReportFault.Memory) }
    {
        for value in values {
            self.push_value(value)?;
        }
        Ok(())
    }

    /// Adds the value at a position, or nothing if there is none.
    fn push_value_at(&mut self, values: &[Value], position: usize) -> Result<(), ReportFault>
        ensures ok { OnOk result
            (self.new ≡ self.old ++ value_cell (slice_get values.now position) ∷ []) }
        ensures err { IfErr result (λ e. e ≡ ReportFault.Memory) }
    {
        match values.get(position) {
            Some(value) => self.push_value(value),
            None => self.push(b""),
        }
    }

    /// Adds a cell of a version.
    fn push_cell(&mut self, version: &VersionRow, cell: Cell) -> Result<(), ReportFault>
        ensures ok { OnOk result (self.new ≡ self.old ++ cell_text version.now cell ∷ []) }
        ensures err { IfErr result (λ e. e ≡ ReportFault.Memory) }
    {
        match cell {
            Cell::Value(position) => self.push_value_at(version.values.as_slice(), position),
            Cell::Start => self.push_day(version.period.start()),
            Cell::End => self.push_day(version.period.end()),
            Cell::From => self.push_moment(version.from),
            Cell::To => self.push_moment(version.to),
        }
    }

    /// Adds the names of columns.
    pub(crate) fn push_names(&mut self, columns: &[VersionColumn]) -> Result<(), ReportFault>
        ensures ok { OnOk result
            (self.new ≡ self.old ++ map (λ (column : any.VersionColumn). column.name) columns.now) }
        ensures err { IfErr result (λ e. e ≡ ReportFault.Memory) }
    {
        for column in columns {
            self.push(column.name.as_str().as_bytes())?;
        }
        Ok(())
    }

    /// Adds the cells of a version, column by column.
    pub(crate) fn push_cells(
        &mut self,
        columns: &[VersionColumn],
        version: &VersionRow,
    ) -> Result<(), ReportFault>
        ensures ok { OnOk result (self.new ≡ self.old
            ++ map (λ (column : any.VersionColumn). cell_text version.now column.cell)
            columns.now) }
        ensures err { IfErr result (λ e. e ≡ ReportFault.Memory) }
    {
        for column in columns {
            self.push_cell(version, column.cell)?;
        }
        Ok(())
    }

    /// The fields as the crate `csv` has them.
    pub(crate) fn fields(&self) -> &ByteRecord
        ensures { fields_of result.now ≡ self.now }
    {
        &self.inner
    }
}
