//! Versions that end together: those of consecutive numbers (`rowid`) end in one statement. Of ten
//! in a statement each costs less than half of what it costs in a statement of its own.

ghost use Rattle.std.specs.Prelude.{◌≡◌, IsTrue, OnOk, map};
ghost use Rattle.sqlite.specs.Held.{state};
ghost use Rattle.sqlite.specs.State.{HasCleanDisk, IsUnchanged};
ghost use Rattle.version_tables.specs.Healthy.{AreShort};
ghost use Rattle.version_tables.specs.Keeping.{LeavesOthers};
ghost use Rattle.version_tables.specs.Rows.{AreBytesAt, IsNumberAt};
ghost use Rattle.version_tables.specs.Runs.{EndsRun, key_shown, recorded};
ghost use Rattle.version_tables.specs.Steps.{ChangeFailsWithReason, CommitsNothing};
ghost use Rattle.version_tables.specs.Steps.{FailsWithReason, StaysHealthy};

use crate::columns::{bytes_at, number_at};
use crate::version_key::RecordedKey;
use sqlite::{Alter, Error, Row, Transaction, params};

fn has_number(row: &Row, at: usize, number: i64) -> bool
    ensures { IsTrue result → IsNumberAt row.now at number }
{
    match number_at(row, at) {
        Some(found) => found == number,
        None => false,
    }
}

fn has_bytes(row: &Row, at: usize, bytes: &[u8]) -> bool
    ensures { IsTrue result → AreBytesAt row.now at bytes.now }
{
    match bytes_at(row, at) {
        Some(found) => found == bytes,
        None => false,
    }
}

/// Whether a row shows the key of a version of the table: four values.
fn is_key(row: &Row, table: u32, key: &RecordedKey) -> bool
    ensures { IsTrue result → row.now ≡ key_shown (recorded table key.now) }
{
    if row.column_count() != 4 || !has_number(row, 0, i64::from(table)) {
        return false;
    }
    has_bytes(row, 1, key.key.values.as_slice())
        && has_number(row, 2, key.key.start)
        && has_number(row, 3, key.from)
}

/// Whether rows show these keys of versions of the table, in this order.
fn are_keys(rows: &[Row], table: u32, keys: &[RecordedKey]) -> bool
    ensures { IsTrue result → rows.now ≡ map key_shown (map (recorded table) keys.now) }
{
    if rows.len() != keys.len() {
        return false;
    }
    for at in 0..rows.len() {
        if !is_key(&rows[at], table, &keys[at]) {
            return false;
        }
    }
    true
}

/// The integer that the first row begins with.
fn first_number(rows: &[Row]) -> Option<i64> {
    match rows {
        [row, ..] => number_at(row, 0),
        [] => None,
    }
}

/// The number of the version of the table that has this key, if there is one.
fn number_of<S: Alter>(
    transaction: &mut Transaction<'_, S>,
    table: u32,
    key: &RecordedKey,
) -> Result<Option<i64>, Error>
    ensures same_reference { transaction.new.conn.ghost_name ≡ transaction.old.conn.ghost_name }
    ensures read { HasCleanDisk (state S.Store transaction.new.conn.now) → OnOk result
        (IsUnchanged (state S.Store transaction.old.conn.now)
        (state S.Store transaction.new.conn.now)) }
    ensures inside { CommitsNothing S.Store transaction.old.conn.now transaction.new.conn.now }
    ensures why { FailsWithReason S.Store transaction.old.conn.now transaction.new.conn.now result }
{
    let values = key.key.values.as_slice();
    let rows = transaction.query_all(
        "SELECT rowid FROM bt_version WHERE tab = ?1 AND vals = ?2 AND s = ?3 AND ss = ?4",
        params![table, values, key.key.start, key.from],
    )?;
    Ok(first_number(rows.as_slice()))
}

/// Ends the versions that have these keys at the moment `to`, if they are those with the numbers
/// from `first` to `last`, in this order. Answers whether they are: if not, nothing is changed.
fn end_run<S: Alter>(
    transaction: &mut Transaction<'_, S>,
    table: u32,
    first: i64,
    last: i64,
    keys: &[RecordedKey],
    to: i64,
) -> Result<bool, Error>
    ensures same_reference { transaction.new.conn.ghost_name ≡ transaction.old.conn.ghost_name }
    ensures made { EndsRun S.Store transaction.old.conn.now transaction.new.conn.now result
        (map (recorded table) keys.now) to }
    ensures others { OnOk result
        (LeavesOthers S.Store transaction.old.conn.now transaction.new.conn.now) }
    ensures inside { CommitsNothing S.Store transaction.old.conn.now transaction.new.conn.now }
    ensures why { ChangeFailsWithReason S.Store transaction.old.conn.now transaction.new.conn.now
        result 0 (λ _ _. AreShort (map (recorded table) keys.now)) }
    ensures healthy { StaysHealthy S.Store transaction.old.conn.now transaction.new.conn.now
        result 0 (λ _. Unit {0}) }
{
    let rows = transaction.query_all(
        "SELECT tab, vals, s, ss FROM bt_version WHERE rowid >= ?1 AND rowid <= ?2 ORDER BY rowid",
        params![first, last],
    )?;
    if !are_keys(rows.as_slice(), table, keys) {
        return Ok(false);
    }
    transaction.execute(
        "UPDATE bt_version SET se = ?3 WHERE rowid >= ?1 AND rowid <= ?2",
        params![first, last, to],
    )?;
    Ok(true)
}

/// The last of so many numbers that follow one another.
fn last_number(first: i64, count: usize) -> i64 {
    match i64::try_from(count) {
        Ok(count) => first.saturating_add(count.saturating_sub(1)),
        Err(_) => first,
    }
}

/// Ends the versions that have these keys at the moment `to` in one statement, if their numbers
/// follow one another in this order. Answers whether they do: if not, nothing is changed.
pub fn end_together<S: Alter>(
    transaction: &mut Transaction<'_, S>,
    table: u32,
    keys: &[RecordedKey],
    to: i64,
) -> Result<bool, Error>
    ensures same_reference { transaction.new.conn.ghost_name ≡ transaction.old.conn.ghost_name }
    ensures made { EndsRun S.Store transaction.old.conn.now transaction.new.conn.now result
        (map (recorded table) keys.now) to }
    ensures others { OnOk result
        (LeavesOthers S.Store transaction.old.conn.now transaction.new.conn.now) }
    ensures inside { CommitsNothing S.Store transaction.old.conn.now transaction.new.conn.now }
    ensures why { ChangeFailsWithReason S.Store transaction.old.conn.now transaction.new.conn.now
        result 0 (λ _ _. AreShort (map (recorded table) keys.now)) }
    ensures healthy { StaysHealthy S.Store transaction.old.conn.now transaction.new.conn.now
        result 0 (λ _. Unit {0}) }
{
    let Some(key) = keys.first() else {
        return Ok(false);
    };
    let Some(first) = number_of(transaction, table, key)? else {
        return Ok(false);
    };
    let last = last_number(first, keys.len());
    end_run(transaction, table, first, last, keys, to)
}
