//! The tests of the rows that the queries answer: by their kinds and numbers, and not by what their
//! bytes are.

ghost use Rattle.std.specs.Prelude.{◌↔◌, ◌∷◌, [], ℤ, IsTrue, MatchOption};
ghost use Rattle.period_core.specs.Calendar.{IsDayNumber};
ghost use Rattle.version_tables.specs.declared.form.Form.{Form as AnyForm};
ghost use Rattle.version_tables.specs.Good.{AreDays, AreMoments, IsClock, IsDefinition, IsKnown};
ghost use Rattle.version_tables.specs.Good.{IsRecordedBy, AreMetaRows, IsVersionRow};
ghost use Rattle.version_tables.specs.Rows.{AreNumbered, AreRising, Rise};

use crate::columns::{bytes_at, number_at};
use crate::form::Form;
use period_core::Day;
use sqlite::Row;

fn is_clock(form: Form, moment: i64) -> bool
    ensures { IsTrue result ↔ IsClock form moment }
{
    moment >= form.least_number() && moment < form.open_end()
}

/// The form and the clock, if the row is one of bt_meta with a form and a clock in its unit.
fn clock_in(row: &Row) -> Option<(Form, i64)>
    ensures { MatchOption result
        ((form : AnyForm) (clock : ℤ) → ¬ AreMetaRows (row.now ∷ []) form clock)
        (λ found. AreMetaRows (row.now ∷ []) found.0 found.1) }
{
    if row.column_count() != 3 {
        return None;
    }
    let id = number_at(row, 0)?;
    let number = number_at(row, 1)?;
    let clock = number_at(row, 2)?;
    let form = Form::of_number(number)?;
    if id == 1 && is_clock(form, clock) {
        Some((form, clock))
    } else {
        None
    }
}

/// The form and the clock, a moment's number in its unit, if the rows are a good bt_meta's:
/// one row, whose number is 1, whose form is 1 or 2 and whose clock is before the open end.
pub fn clock_of(rows: &[Row]) -> Option<(Form, i64)>
    ensures { MatchOption result ((form : AnyForm) (clock : ℤ) → ¬ AreMetaRows rows.now form clock)
        (λ found. AreMetaRows rows.now found.0 found.1) }
{
    match rows {
        [row] => clock_in(row),
        _ => None,
    }
}

/// Whether the row is one of bt_table with this number and some bytes.
pub fn is_definition(row: &Row, id: u32) -> bool
    ensures { IsTrue result ↔ IsDefinition id row.now }
{
    if row.column_count() != 2 {
        return false;
    }
    let Some(number) = number_at(row, 0) else {
        return false;
    };
    let Some(_bytes) = bytes_at(row, 1) else {
        return false;
    };
    number == i64::from(id)
}

fn is_known(table: i64, tables: u32) -> bool
    ensures { IsTrue result ↔ IsKnown tables table }
{
    table > 0 && table <= i64::from(tables)
}

fn is_day(number: i64) -> bool
    ensures { IsTrue result ↔ IsDayNumber number }
{
    match i32::try_from(number) {
        Ok(number) => Day::new(number).is_some(),
        Err(_) => false,
    }
}

fn are_days(start: i64, end: i64) -> bool
    ensures { IsTrue result ↔ AreDays start end }
{
    is_day(start) && is_day(end) && start < end
}

fn is_recorded_by(form: Form, from: i64, to: i64, clock: i64) -> bool
    ensures { IsTrue result ↔ IsRecordedBy form clock from to }
{
    from <= clock && (to <= clock || to == form.open_end())
}

fn are_moments(form: Form, from: i64, to: i64, clock: i64) -> bool
    ensures { IsTrue result ↔ AreMoments form clock from to }
{
    if !form.has_number(from) {
        return false;
    }
    if !form.has_number(to) {
        return false;
    }
    from < to && is_recorded_by(form, from, to, clock)
}

/// Whether the row is one of bt_version with numbers that a version may have in a store of the
/// form, if the clock is at this moment and `tables` is the number of tables: a table that is
/// there, a period of days, a system time that begins up to the clock and ends up to it or at the
/// open end.
pub fn is_version(row: &Row, form: Form, clock: i64, tables: u32) -> bool
    ensures { IsTrue result ↔ IsVersionRow form clock tables row.now }
{
    if row.column_count() != 6 {
        return false;
    }
    let Some(table) = number_at(row, 0) else {
        return false;
    };
    let Some(_values) = bytes_at(row, 1) else {
        return false;
    };
    let Some(start) = number_at(row, 2) else {
        return false;
    };
    let Some(end) = number_at(row, 3) else {
        return false;
    };
    let Some(from) = number_at(row, 4) else {
        return false;
    };
    let Some(to) = number_at(row, 5) else {
        return false;
    };
    if !is_known(table, tables) {
        return false;
    }
    if !are_days(start, end) {
        return false;
    }
    are_moments(form, from, to, clock)
}

/// Whether each row begins with an integer.
pub fn are_numbered(rows: &[Row]) -> bool
    ensures { IsTrue result ↔ AreNumbered rows.now }
{
    for row in rows {
        if number_at(row, 0).is_none() {
            return false;
        }
    }
    true
}

/// Whether both rows begin with integers, and the second with the greater one.
fn rises(first: &Row, second: &Row) -> bool
    ensures { IsTrue result ↔ Rise first.now second.now }
{
    let Some(low) = number_at(first, 0) else {
        return false;
    };
    let Some(high) = number_at(second, 0) else {
        return false;
    };
    low < high
}

/// Whether each row begins with a greater integer than the row before it.
pub fn are_rising(rows: &[Row]) -> bool
    ensures { IsTrue result ↔ AreRising rows.now }
{
    for at in 1..rows.len() {
        if !rises(&rows[at - 1], &rows[at]) {
            return false;
        }
    }
    true
}
