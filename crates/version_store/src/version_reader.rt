//! Version rows as they are read from the database.

ghost use Rattle.std.specs.Prelude.{◌≡◌, ◌≢◌, ℤ, IfErr, IfOk, MatchOption};
ghost use Rattle.std.specs.List.{All};
ghost use Rattle.period_core.specs.Calendar.{IsDayNumber};
ghost use Rattle.period_core.specs.Encoding.{IsColumnValue};
ghost use Rattle.version_tables.specs.Forms.{IsNumberIn, end_in, moment_in};
ghost use Rattle.version_tables.specs.Good.{AreDays};
ghost use Rattle.version_tables.specs.Represents.{shown, stored};
ghost use Rattle.version_tables.specs.Rows.{IsNumberAt};
ghost use Rattle.version_store.specs.Contents.{IsDated, TableVersion, version_in};
ghost use Rattle.version_store.specs.GoodStore.{HasTimesOf};
ghost use Rattle.version_store.specs.Units.{version_of};
ghost use Rattle.version_store.specs.Written.{written_version};
ghost use Rattle.version_store.specs.declared.fault.StoreFault.TheVariants.{Database};

use crate::fault::StoreFault;
use period_core::{Day, Moment, Period, Values, VersionRow, decode_values};
use sqlite::Row;
use std::alloc::Global;
use version_tables::{Form, bytes_at, number_at};

/// The day at a place of a row, if it has a day's number.
fn day_at(row: &Row, at: usize) -> Option<Day>
    ensures { MatchOption result (¬ ((n : ℤ) × IsNumberAt row.now at n × IsDayNumber n))
        (λ day. IsNumberAt row.now at day) }
{
    let number = number_at(row, at)?;
    match i32::try_from(number) {
        Ok(number) => Day::new(number),
        Err(_) => None,
    }
}

/// The moment at a place of a row, if it has the number of one in the form's unit.
fn moment_at(row: &Row, form: Form, at: usize) -> Option<Moment>
    ensures { MatchOption result (¬ ((n : ℤ) × IsNumberAt row.now at n × IsNumberIn form n))
        (λ moment. (n : ℤ) × IsNumberAt row.now at n × (moment ≡ moment_in form n)) }
{
    form.moment(number_at(row, at)?)
}

/// The end of a system time, which a row has at a place.
fn end_at(row: &Row, form: Form, at: usize) -> Option<Moment>
    ensures { MatchOption result (¬ ((n : ℤ) × IsNumberAt row.now at n × IsNumberIn form n))
        (λ moment. (n : ℤ) × IsNumberAt row.now at n × (moment ≡ end_in form n)) }
{
    form.end(number_at(row, at)?)
}

/// The period at two places of a row, if they have days' numbers.
fn period_at(row: &Row, start: usize, end: usize) -> Option<Period>
    ensures { MatchOption result
        (¬ ((s e : ℤ) × IsNumberAt row.now start s × IsNumberAt row.now end e × AreDays s e))
        (λ period. IsNumberAt row.now start period.start × IsNumberAt row.now end period.end) }
{
    Period::new(day_at(row, start)?, day_at(row, end)?)
}

/// The version row with these values, and the period and the system time of a row of bt_version,
/// if it has numbers of days and moments. Its numbers are in the form's unit.
pub(crate) fn dated_row(form: Form, row: &Row, values: Values) -> Option<VersionRow>
    ensures { MatchOption result
        ((v : TableVersion) → IsDated (version_of form v) → row.now ≢ stored (written_version v))
        (λ version. (version.values ≡ values) × HasTimesOf form row.now version) }
{
    let period = period_at(row, 2, 3)?;
    let from = moment_at(row, form, 4)?;
    let to = end_at(row, form, 5)?;
    Some(VersionRow {
        values,
        period,
        from,
        to,
    })
}

/// The version row that a row of the query shows: its values as bytes, its period, its moments. The
/// row of a version that has days, moments and values of columns is always read, but for memory.
/// The row's numbers are in the form's unit.
pub(crate) fn read_version(alloc: Global, form: Form, row: &Row) -> Result<VersionRow, StoreFault>
    ensures shown { IfOk result (λ version. (v : TableVersion)
        × (row.now ≡ shown (written_version v))
        × (version_in v.table version ≡ version_of form v)) }
    ensures values { IfOk result (λ version. All IsColumnValue version.values) }
    ensures bad { IfErr result (λ fault. fault ≡ Database
        → (v : TableVersion) → IsDated (version_of form v) → All IsColumnValue v.values
        → row.now ≢ shown (written_version v)) }
{
    if row.column_count() != 5 {
        return Err(StoreFault::Database);
    }
    let Some(bytes) = bytes_at(row, 0) else {
        return Err(StoreFault::Database);
    };
    let Some(period) = period_at(row, 1, 2) else {
        return Err(StoreFault::Database);
    };
    let Some(from) = moment_at(row, form, 3) else {
        return Err(StoreFault::Database);
    };
    let Some(to) = end_at(row, form, 4) else {
        return Err(StoreFault::Database);
    };
    let values = decode_values(alloc, bytes)?;
    Ok(VersionRow {
        values: Values::from_vec(values),
        period,
        from,
        to,
    })
}
