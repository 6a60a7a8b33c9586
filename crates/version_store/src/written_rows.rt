//! Rows as they are written.

ghost use Rattle.std.specs.Prelude.{◌≡◌, ℕ, ℤ, map, IfErr, IfOk};
ghost use Rattle.std.specs.List.{All, AllByRecursion};
ghost use Rattle.period_core.specs.Encoding.{IsColumnValue, encoded};
ghost use Rattle.period_core.specs.Moments.{forever};
ghost use Rattle.version_tables.specs.Represents.{new_version};
ghost use Rattle.version_store.specs.Contents.{added_in};
ghost use Rattle.version_store.specs.Written.{written_version};
ghost use Rattle.version_store.specs.declared.fault.StoreFault.TheVariants.{Memory};

use crate::fault::StoreFault;
use period_core::{Period, PeriodRow, Values, VersionRow, encode_values};
use std::alloc::Global;
use version_tables::{NewRow, VersionKey};

/// The key of a row with these values and this period.
pub(crate) fn version_key_of(
    alloc: Global,
    values: &Values,
    period: Period,
) -> Result<VersionKey, StoreFault>
    ensures bytes { IfOk result (λ key. key.values.items ≡ encoded values.now) }
    ensures start { IfOk result (λ key. key.start ≡ period.start) }
    ensures held { IfOk result (λ _. All IsColumnValue values.now) }
    ensures why { IfErr result (λ fault. fault ≡ Memory) }
{
    Ok(VersionKey {
        values: encode_values(alloc, values.as_slice())?,
        start: i64::from(period.start.number()),
    })
}

/// A row as it is added.
pub(crate) fn new_row(alloc: Global, row: &PeriodRow) -> Result<NewRow, StoreFault>
    ensures bytes { IfOk result (λ new. new.key.values.items ≡ encoded row.now.values) }
    ensures start { IfOk result (λ new. new.key.start ≡ row.now.period.start) }
    ensures end { IfOk result (λ new. new.end ≡ row.now.period.end) }
    ensures held { IfOk result (λ _. All IsColumnValue row.now.values) }
    ensures why { IfErr result (λ fault. fault ≡ Memory) }
{
    Ok(NewRow {
        key: version_key_of(alloc, &row.values, row.period)?,
        end: i64::from(row.period.end.number()),
    })
}

/// A version row as it is added to a copy.
pub(crate) fn copied_row(alloc: Global, row: &VersionRow) -> Result<NewRow, StoreFault>
    ensures bytes { IfOk result (λ new. new.key.values.items ≡ encoded row.now.values) }
    ensures start { IfOk result (λ new. new.key.start ≡ row.now.period.start) }
    ensures end { IfOk result (λ new. new.end ≡ row.now.period.end) }
    ensures held { IfOk result (λ _. All IsColumnValue row.now.values) }
{
    Ok(NewRow {
        key: version_key_of(alloc, &row.values, row.period)?,
        end: i64::from(row.period.end.number()),
    })
}

/// Rows as they are added.
pub(crate) fn new_rows(alloc: Global, rows: &[PeriodRow]) -> Result<Vec<NewRow>, StoreFault>
    ensures same { IfOk result (λ new. (table : ℕ) (moment : ℤ)
        → map (new_version table moment forever) new.items
        ≡ map (λ row. written_version (added_in table moment forever row)) rows.now) }
    ensures held { IfOk result
        (λ _. AllByRecursion (λ row. All IsColumnValue row.values) rows.now) }
    ensures why { IfErr result (λ fault. fault ≡ Memory) }
{
    let mut new = Vec::with_capacity(alloc, rows.len())?;
    for row in rows {
        new.push(new_row(alloc, row)?)?;
    }
    Ok(new)
}
