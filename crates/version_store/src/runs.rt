//! Rows that a plan ends together: those whose numbers in the database follow one another end in
//! one statement.

ghost use Rattle.std.specs.Prelude.{◌≡◌, ◌≤◌, IfErr, IfOk, IfSome, OnOk, length};
ghost use Rattle.std.specs.List.{AllByRecursion};
ghost use Rattle.period_core.specs.Encoding.{encoded};
ghost use Rattle.version_tables.specs.Healthy.{IsShort};
ghost use Rattle.version_tables.specs.Keeping.{LeavesOthers};
ghost use Rattle.version_tables.specs.Steps.{CommitsNothing};
ghost use Rattle.version_store.specs.PendingRemovals.{IsCausedExcept, StaysHealthyExcept};
ghost use Rattle.version_store.specs.Runs.{AreKeysOf, EndsFirst, EndsRows};
ghost use Rattle.version_store.specs.declared.fault.StoreFault.TheVariants.{Memory as NoMemory};
ghost use Rattle.version_tables.specs.declared.version_key.VersionKey.{VersionKey as AnyKey};
ghost use Rattle.std.specs.Prelude.{List};

use crate::fault::StoreFault;
use crate::written_rows::version_key_of;
use period_core::{Moment, VersionRow};
use sqlite::Transaction;
use sqlite_trees::store::Alter;
use std::alloc::Global;
use version_tables::{RecordedKey, end_together};

/// The number of rows that end in one statement.
const RUN: usize = 64;

/// The keys of rows, unless one of these began at the moment.
fn keys_of(
    alloc: Global,
    moment: Moment,
    rows: &[VersionRow],
) -> Result<Option<Vec<RecordedKey>>, StoreFault>
    ensures keys { IfOk result (λ found. IfSome found
        (λ keys. AreKeysOf moment rows.now keys.items)) }
    ensures why { IfErr result (λ fault. fault ≡ NoMemory) }
{
    let mut keys = Vec::with_capacity(alloc, rows.len())?;
    for row in rows {
        let from = row.from.number();
        if from == moment.number() {
            return Ok(None);
        }
        let key = version_key_of(alloc, &row.values, row.period)?;
        keys.push(RecordedKey { key, from })?;
    }
    Ok(Some(keys))
}

/// Ends rows of a table at a moment in one statement, if none of them began then and their numbers
/// follow one another. Answers whether it did.
fn end_run<S: Alter>(
    alloc: Global,
    transaction: &mut Transaction<'_, S>,
    table: u8,
    moment: Moment,
    rows: &[VersionRow],
) -> Result<bool, StoreFault>
    ensures same_reference { transaction.new.conn.ghost_name ≡ transaction.old.conn.ghost_name }
    ensures made { (pending : List AnyKey) → EndsRows S.Store transaction.old.conn.now
        transaction.new.conn.now result table moment pending rows.now }
    ensures others { OnOk result
        (LeavesOthers S.Store transaction.old.conn.now transaction.new.conn.now) }
    ensures inside { CommitsNothing S.Store transaction.old.conn.now transaction.new.conn.now }
    ensures why { (pending : List AnyKey) → IsCausedExcept S.Store transaction.old.conn.now
        transaction.new.conn.now result table moment pending 0
        (λ _. AllByRecursion (λ row. IsShort (encoded row.values)) rows.now) }
    ensures healthy { (pending : List AnyKey) → StaysHealthyExcept S.Store
        transaction.old.conn.now transaction.new.conn.now result table moment pending 0 }
{
    let Some(keys) = keys_of(alloc, moment, rows)? else {
        return Ok(false);
    };
    Ok(end_together(
        transaction,
        u32::from(table),
        keys.as_slice(),
        moment.number(),
    )?)
}

/// Ends the first of the rows of a table at a moment, as many in one statement as there are in a
/// run, as long as their numbers follow one another. Answers how many it ended.
pub(crate) fn end_runs<S: Alter>(
    alloc: Global,
    transaction: &mut Transaction<'_, S>,
    table: u8,
    moment: Moment,
    rows: &[VersionRow],
) -> Result<usize, StoreFault>
    ensures same_reference { transaction.new.conn.ghost_name ≡ transaction.old.conn.ghost_name }
    ensures within { IfOk result (λ count. count ≤ length rows.now) }
    ensures made { (pending : List AnyKey) → EndsFirst S.Store transaction.old.conn.now
        transaction.new.conn.now result table moment pending rows.now }
    ensures others { OnOk result
        (LeavesOthers S.Store transaction.old.conn.now transaction.new.conn.now) }
    ensures inside { CommitsNothing S.Store transaction.old.conn.now transaction.new.conn.now }
    ensures why { (pending : List AnyKey) → IsCausedExcept S.Store transaction.old.conn.now
        transaction.new.conn.now result table moment pending 0
        (λ _. AllByRecursion (λ row. IsShort (encoded row.values)) rows.now) }
    ensures healthy { (pending : List AnyKey) → StaysHealthyExcept S.Store
        transaction.old.conn.now transaction.new.conn.now result table moment pending 0 }
{
    let mut rest = rows;
    'runs: while rest.len() >= RUN {
        let (run, more) = rest.split_at(RUN);
        if !end_run(alloc, transaction, table, moment, run)? {
            return Ok(rows.len() - rest.len());
        }
        rest = more;
    }
    Ok(rows.len() - rest.len())
}
