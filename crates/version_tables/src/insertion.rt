//! Rows are added by several in one statement: a row of thirty-two costs the database about half of
//! what a row with a statement of its own does in a file, and three quarters in memory. After the
//! first of a call, thirty-two get numbers that follow the last one, for which the database has not
//! to look.

ghost use Rattle.std.specs.Prelude.{◌≡◌, ◌≤◌, ◌<ℤ◌, ◌+ℤ◌, ◌-ℤ◌, ◌^◌, [], pos, length};
ghost use Rattle.std.specs.Prelude.{map, IfOk, IfSome, OnOk, Some};
ghost use Rattle.sqlite.specs.Values.{bound};
ghost use Rattle.version_tables.specs.Adding.{IsBatch, cells, given_numbered, given_rows};
ghost use Rattle.version_tables.specs.Keeping.{LeavesOthers};
ghost use Rattle.version_tables.specs.Represents.{all_added, new_version};
ghost use Rattle.version_tables.specs.Healthy.{CanAdd, IsNextNumber};
ghost use Rattle.version_tables.specs.Steps.{ChangeFailsWithReason, ChangesRecords};
ghost use Rattle.version_tables.specs.Steps.{CommitsNothing, NumbersOn, StaysHealthy};
ghost use Rattle.version_tables.specs.Texts.{eight_text, four_text, one_text, two_text};
ghost use Rattle.version_tables.specs.Texts.{thirty_two_text};

use crate::version_key::NewRow;
use sqlite::types::ValueRef;
use sqlite::{Alter, Error, Transaction};
use std::alloc::{AllocError, Global};

/// The number of rows, one at least, that the next statement adds.
fn batch_len(rows: usize) -> usize
    requires { 1 ≤ rows }
    ensures batch { IsBatch result }
    ensures few { result ≤ rows }
{
    match rows {
        0..=1 => 1,
        2..=3 => 2,
        4..=7 => 4,
        8..=31 => 8,
        _ => 32,
    }
}

/// The statement that adds thirty-two rows.
const THIRTY_TWO_ROWS: &str =
    "INSERT INTO bt_version (tab, vals, s, e, ss, se) VALUES (?1, ?4, ?5, ?6, ?2, ?3), \
     (?1, ?, ?, ?, ?2, ?3), (?1, ?, ?, ?, ?2, ?3), (?1, ?, ?, ?, ?2, ?3), (?1, ?, ?, ?, ?2, ?3), \
     (?1, ?, ?, ?, ?2, ?3), (?1, ?, ?, ?, ?2, ?3), (?1, ?, ?, ?, ?2, ?3), (?1, ?, ?, ?, ?2, ?3), \
     (?1, ?, ?, ?, ?2, ?3), (?1, ?, ?, ?, ?2, ?3), (?1, ?, ?, ?, ?2, ?3), (?1, ?, ?, ?, ?2, ?3), \
     (?1, ?, ?, ?, ?2, ?3), (?1, ?, ?, ?, ?2, ?3), (?1, ?, ?, ?, ?2, ?3), (?1, ?, ?, ?, ?2, ?3), \
     (?1, ?, ?, ?, ?2, ?3), (?1, ?, ?, ?, ?2, ?3), (?1, ?, ?, ?, ?2, ?3), (?1, ?, ?, ?, ?2, ?3), \
     (?1, ?, ?, ?, ?2, ?3), (?1, ?, ?, ?, ?2, ?3), (?1, ?, ?, ?, ?2, ?3), (?1, ?, ?, ?, ?2, ?3), \
     (?1, ?, ?, ?, ?2, ?3), (?1, ?, ?, ?, ?2, ?3), (?1, ?, ?, ?, ?2, ?3), (?1, ?, ?, ?, ?2, ?3), \
     (?1, ?, ?, ?, ?2, ?3), (?1, ?, ?, ?, ?2, ?3), (?1, ?, ?, ?, ?2, ?3)";

/// The statement that adds thirty-two rows with the numbers that they are given.
const NUMBERED_ROWS: &str =
    "INSERT INTO bt_version (rowid, tab, vals, s, e, ss, se) VALUES (?4, ?1, ?, ?, ?, ?2, ?3), \
     (?, ?1, ?, ?, ?, ?2, ?3), (?, ?1, ?, ?, ?, ?2, ?3), (?, ?1, ?, ?, ?, ?2, ?3), \
     (?, ?1, ?, ?, ?, ?2, ?3), (?, ?1, ?, ?, ?, ?2, ?3), (?, ?1, ?, ?, ?, ?2, ?3), \
     (?, ?1, ?, ?, ?, ?2, ?3), (?, ?1, ?, ?, ?, ?2, ?3), (?, ?1, ?, ?, ?, ?2, ?3), \
     (?, ?1, ?, ?, ?, ?2, ?3), (?, ?1, ?, ?, ?, ?2, ?3), (?, ?1, ?, ?, ?, ?2, ?3), \
     (?, ?1, ?, ?, ?, ?2, ?3), (?, ?1, ?, ?, ?, ?2, ?3), (?, ?1, ?, ?, ?, ?2, ?3), \
     (?, ?1, ?, ?, ?, ?2, ?3), (?, ?1, ?, ?, ?, ?2, ?3), (?, ?1, ?, ?, ?, ?2, ?3), \
     (?, ?1, ?, ?, ?, ?2, ?3), (?, ?1, ?, ?, ?, ?2, ?3), (?, ?1, ?, ?, ?, ?2, ?3), \
     (?, ?1, ?, ?, ?, ?2, ?3), (?, ?1, ?, ?, ?, ?2, ?3), (?, ?1, ?, ?, ?, ?2, ?3), \
     (?, ?1, ?, ?, ?, ?2, ?3), (?, ?1, ?, ?, ?, ?2, ?3), (?, ?1, ?, ?, ?, ?2, ?3), \
     (?, ?1, ?, ?, ?, ?2, ?3), (?, ?1, ?, ?, ?, ?2, ?3), (?, ?1, ?, ?, ?, ?2, ?3), \
     (?, ?1, ?, ?, ?, ?2, ?3)";

/// The statement that adds `rows` rows.
fn text_for(rows: usize) -> &'static str
    ensures one { rows ≡ 1 → result.now ≡ one_text }
    ensures two { rows ≡ 2 → result.now ≡ two_text }
    ensures four { rows ≡ 4 → result.now ≡ four_text }
    ensures eight { rows ≡ 8 → result.now ≡ eight_text }
    ensures thirty_two { rows ≡ 32 → result.now ≡ thirty_two_text }
{
    match rows {
        1 => "INSERT INTO bt_version (tab, vals, s, e, ss, se) VALUES (?1, ?4, ?5, ?6, ?2, ?3)",
        2 => {
            "INSERT INTO bt_version (tab, vals, s, e, ss, se) VALUES (?1, ?4, ?5, ?6, ?2, ?3), \
             (?1, ?, ?, ?, ?2, ?3)"
        }
        4 => {
            "INSERT INTO bt_version (tab, vals, s, e, ss, se) VALUES (?1, ?4, ?5, ?6, ?2, ?3), \
             (?1, ?, ?, ?, ?2, ?3), (?1, ?, ?, ?, ?2, ?3), (?1, ?, ?, ?, ?2, ?3)"
        }
        8 => {
            "INSERT INTO bt_version (tab, vals, s, e, ss, se) VALUES (?1, ?4, ?5, ?6, ?2, ?3), \
             (?1, ?, ?, ?, ?2, ?3), (?1, ?, ?, ?, ?2, ?3), (?1, ?, ?, ?, ?2, ?3), \
             (?1, ?, ?, ?, ?2, ?3), (?1, ?, ?, ?, ?2, ?3), (?1, ?, ?, ?, ?2, ?3), \
             (?1, ?, ?, ?, ?2, ?3)"
        }
        _ => THIRTY_TWO_ROWS,
    }
}

/// The parameters that rows share.
fn shared_cells(table: u32, from: i64, to: i64) -> [ValueRef<'static>; 3]
    ensures { bound result ≡ given_rows table from to [] }
{
    [
        ValueRef::Int(i64::from(table)),
        ValueRef::Int(from),
        ValueRef::Int(to),
    ]
}

/// The parameters of a row.
fn cells(row: &NewRow) -> [ValueRef<'_>; 3]
    ensures { bound result ≡ cells row.now }
{
    [
        ValueRef::Blob(row.key.values.as_slice()),
        ValueRef::Int(row.key.start),
        ValueRef::Int(row.end),
    ]
}

/// The parameters of that statement.
fn parameters<'a>(
    alloc: Global,
    table: u32,
    from: i64,
    to: i64,
    rows: &'a [NewRow],
) -> Result<Vec<ValueRef<'a>>, AllocError>
    requires { length rows.now ≤ 32 }
    ensures { IfOk result (λ all. bound all.items ≡ given_rows table from to rows.now) }
{
    let mut all = Vec::with_capacity(alloc, 3 + 3 * rows.len())?;
    all.extend_from_slice(&shared_cells(table, from, to))?;
    for row in rows {
        all.extend_from_slice(&cells(row))?;
    }
    Ok(all)
}

/// The parameters of the statement that adds rows with the numbers from `first` on.
fn numbered_parameters<'a>(
    alloc: Global,
    table: u32,
    from: i64,
    to: i64,
    first: i64,
    rows: &'a [NewRow],
) -> Result<Vec<ValueRef<'a>>, AllocError>
    requires few { length rows.now ≤ 32 }
    requires room { (first +ℤ pos 32) <ℤ pos (2 ^ 63) }
    ensures { IfOk result (λ all. bound all.items ≡ given_numbered table from to first rows.now) }
{
    let mut all = Vec::with_capacity(alloc, 3 + 4 * rows.len())?;
    all.extend_from_slice(&shared_cells(table, from, to))?;
    let mut number = first;
    for row in rows {
        all.push(ValueRef::Int(number))?;
        all.extend_from_slice(&cells(row))?;
        number += 1;
    }
    Ok(all)
}

/// Adds one, two, four, eight or thirty-two rows in one statement.
fn insert_batch<S: Alter>(
    alloc: Global,
    transaction: &mut Transaction<'_, S>,
    table: u32,
    from: i64,
    to: i64,
    rows: &[NewRow],
) -> Result<(), Error>
    requires { IsBatch (length rows.now) }
    ensures same_reference { transaction.new.conn.ghost_name ≡ transaction.old.conn.ghost_name }
    ensures made { ChangesRecords S.Store transaction.old.conn.now transaction.new.conn.now result
        (all_added (map (new_version table from to) rows.now)) }
    ensures others { OnOk result
        (LeavesOthers S.Store transaction.old.conn.now transaction.new.conn.now) }
    ensures inside { CommitsNothing S.Store transaction.old.conn.now transaction.new.conn.now }
    ensures why { ChangeFailsWithReason S.Store transaction.old.conn.now transaction.new.conn.now
        result (length rows.now) (λ _. CanAdd (map (new_version table from to) rows.now)) }
    ensures room { NumbersOn S.Store transaction.old.conn.now transaction.new.conn.now
        result (length rows.now) (λ _. Unit {0}) }
{
    let parameters = parameters(alloc, table, from, to, rows)?;
    match transaction.execute(text_for(rows.len()), parameters.as_slice()) {
        Ok(_) => Ok(()),
        Err(error) => Err(error),
    }
}

/// Adds thirty-two rows, with the numbers from `first` on, in one statement.
fn insert_numbered<S: Alter>(
    alloc: Global,
    transaction: &mut Transaction<'_, S>,
    table: u32,
    from: i64,
    to: i64,
    first: i64,
    rows: &[NewRow],
) -> Result<(), Error>
    requires rows { length rows.now ≡ 32 }
    requires room { (first +ℤ pos 32) <ℤ pos (2 ^ 63) }
    ensures same_reference { transaction.new.conn.ghost_name ≡ transaction.old.conn.ghost_name }
    ensures made { ChangesRecords S.Store transaction.old.conn.now transaction.new.conn.now result
        (all_added (map (new_version table from to) rows.now)) }
    ensures others { OnOk result
        (LeavesOthers S.Store transaction.old.conn.now transaction.new.conn.now) }
    ensures inside { CommitsNothing S.Store transaction.old.conn.now transaction.new.conn.now }
    ensures why { ChangeFailsWithReason S.Store transaction.old.conn.now transaction.new.conn.now
        result (length rows.now) (λ db records. IsNextNumber first db
        × CanAdd (map (new_version table from to) rows.now) records) }
    ensures room { NumbersOn S.Store transaction.old.conn.now transaction.new.conn.now
        result (length rows.now) (IsNextNumber first) }
{
    let parameters = numbered_parameters(alloc, table, from, to, first, rows)?;
    match transaction.execute(NUMBERED_ROWS, parameters.as_slice()) {
        Ok(_) => Ok(()),
        Err(error) => Err(error),
    }
}

/// The first of the numbers for the next rows, if thirty-two follow a row with the number `last`
/// and there are so many numbers after it.
fn first_number(last: Option<i64>, rows: usize) -> Option<i64>
    ensures next { IfSome result (λ first. last ≡ Some (first -ℤ pos 1)) }
    ensures rows { IfSome result (λ first. rows ≡ 32) }
    ensures room { IfSome result (λ first. (first +ℤ pos 32) <ℤ pos (2 ^ 63)) }
{
    let last = last?;
    if rows != 32 || last.checked_add(33).is_none() {
        return None;
    }
    Some(last + 1)
}

/// Adds the next rows in one statement: after a row that the database has numbered, with numbers
/// that it need not look for.
fn insert_next<S: Alter>(
    alloc: Global,
    transaction: &mut Transaction<'_, S>,
    table: u32,
    from: i64,
    to: i64,
    last: Option<i64>,
    rows: &[NewRow],
) -> Result<(), Error>
    requires { IsBatch (length rows.now) }
    ensures same_reference { transaction.new.conn.ghost_name ≡ transaction.old.conn.ghost_name }
    ensures made { ChangesRecords S.Store transaction.old.conn.now transaction.new.conn.now result
        (all_added (map (new_version table from to) rows.now)) }
    ensures others { OnOk result
        (LeavesOthers S.Store transaction.old.conn.now transaction.new.conn.now) }
    ensures inside { CommitsNothing S.Store transaction.old.conn.now transaction.new.conn.now }
    ensures why { ChangeFailsWithReason S.Store transaction.old.conn.now transaction.new.conn.now
        result (length rows.now) (λ db records. IfSome last (λ n. IsNextNumber (n +ℤ pos 1) db)
        × CanAdd (map (new_version table from to) rows.now) records) }
    ensures room { NumbersOn S.Store transaction.old.conn.now transaction.new.conn.now
        result (length rows.now) (λ db. IfSome last (λ n. IsNextNumber (n +ℤ pos 1) db)) }
{
    match first_number(last, rows.len()) {
        Some(first) => insert_numbered(alloc, transaction, table, from, to, first, rows),
        None => insert_batch(alloc, transaction, table, from, to, rows),
    }
}

/// Adds rows to a table, with the system time from the moment `from` on and before the moment `to`.
/// A row is refused if a version, or another of the rows, has its key, and all are refused with it.
/// A healthy database with room for the rows refuses them for nothing else but memory and faults.
pub fn insert_versions<S: Alter>(
    alloc: Global,
    transaction: &mut Transaction<'_, S>,
    table: u32,
    from: i64,
    to: i64,
    rows: &[NewRow],
) -> Result<(), Error>
    ensures same_reference { transaction.new.conn.ghost_name ≡ transaction.old.conn.ghost_name }
    ensures made { ChangesRecords S.Store transaction.old.conn.now transaction.new.conn.now result
        (all_added (map (new_version table from to) rows.now)) }
    ensures others { OnOk result
        (LeavesOthers S.Store transaction.old.conn.now transaction.new.conn.now) }
    ensures inside { CommitsNothing S.Store transaction.old.conn.now transaction.new.conn.now }
    ensures why { ChangeFailsWithReason S.Store transaction.old.conn.now transaction.new.conn.now
        result (length rows.now) (λ _. CanAdd (map (new_version table from to) rows.now)) }
    ensures healthy { StaysHealthy S.Store transaction.old.conn.now transaction.new.conn.now
        result (length rows.now) (λ _. Unit {0}) }
{
    let mut rest = rows;
    // The database gives the number after the greatest, so those after its last one are free.
    let mut last = None;
    'batches: while !rest.is_empty() {
        let (batch, more) = rest.split_at(batch_len(rest.len()));
        insert_next(alloc, transaction, table, from, to, last, batch)?;
        last = Some(transaction.last_insert_rowid());
        rest = more;
    }
    Ok(())
}
