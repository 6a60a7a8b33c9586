//! The search for versions of one key, which only a bt_version that was made without its key has.

ghost use Rattle.std.specs.Prelude.{◌≡◌, ◌↔◌, [], false, IfOk, IsTrue, List, Ok, OnOk};
ghost use Rattle.sqlite.specs.Held.{state};
ghost use Rattle.sqlite.specs.Order.{Row as Values};
ghost use Rattle.sqlite.specs.State.{HasCleanDisk, IsUnchanged, Shown};
ghost use Rattle.version_tables.specs.Presence.{HasVersionKey};
ghost use Rattle.version_tables.specs.Rows.{AreOneKey, RepeatKey, ShareBytes, ShareNumber};
ghost use Rattle.version_tables.specs.Steps.{Keeps, KeepsFaults};
ghost use Rattle.version_tables.specs.Texts.{keys_text};

use crate::columns::{bytes_at, number_at};
use crate::presence::key_there;
use sqlite::{Alter, Connection, Error, Row};

/// Whether two rows have one number in the column at a place.
fn share_number(first: &Row, second: &Row, at: usize) -> bool
    ensures { IsTrue result ↔ ShareNumber first.now second.now at }
{
    let Some(one) = number_at(first, at) else {
        return false;
    };
    let Some(other) = number_at(second, at) else {
        return false;
    };
    one == other
}

fn share_bytes(first: &Row, second: &Row, at: usize) -> bool
    ensures { IsTrue result ↔ ShareBytes first.now second.now at }
{
    let Some(one) = bytes_at(first, at) else {
        return false;
    };
    let Some(other) = bytes_at(second, at) else {
        return false;
    };
    one == other
}

/// Whether both rows are one key: the table, the values, the two starts.
fn are_one_key(first: &Row, second: &Row) -> bool
    ensures { IsTrue result ↔ AreOneKey first.now second.now }
{
    share_number(first, second, 0)
        && share_bytes(first, second, 1)
        && share_number(first, second, 2)
        && share_number(first, second, 3)
}

/// Whether a row and the row after it are one key.
fn repeat_key(rows: &[Row]) -> bool
    ensures { IsTrue result ↔ RepeatKey rows.now }
{
    for at in 1..rows.len() {
        if are_one_key(&rows[at - 1], &rows[at]) {
            return true;
        }
    }
    false
}

/// Whether two versions are of one key. If bt_version has its key, no rows are read. Otherwise the
/// keys are read in their order, in which those of one key are neighbours.
pub fn repeats_key<S: Alter>(connection: &mut Connection<S>) -> Result<bool, Error>
    requires { connection.old.in_transaction ≡ false }
    ensures keyed { HasVersionKey (state S.Store connection.old).now.schema → result ≡ Ok false }
    ensures searched { HasCleanDisk (state S.Store connection.new)
        → ¬ HasVersionKey (state S.Store connection.old).now.schema
        → IfOk result (λ found. (rows : List Values) × Shown keys_text []
        (state S.Store connection.old) (state S.Store connection.new) rows
        × (IsTrue found ↔ RepeatKey rows)) }
    ensures unchanged { IsTrue (state S.Store connection.old).is_open
        → HasCleanDisk (state S.Store connection.new)
        → OnOk result (IsUnchanged (state S.Store connection.old) (state S.Store connection.new)) }
    ensures same { HasCleanDisk (state S.Store connection.new)
        → Keeps (state S.Store connection.old) (state S.Store connection.new) }
    ensures clean { HasCleanDisk (state S.Store connection.new)
        → HasCleanDisk (state S.Store connection.old) }
    ensures faults { KeepsFaults (state S.Store connection.old) (state S.Store connection.new) }
    ensures mode { connection.new.in_transaction ≡ false }
{
    if key_there(connection) {
        return Ok(false);
    }
    // For the proof alone: whether a transaction is open is known by this call.
    let _settled = connection.is_autocommit();
    let keys = connection.query_all(
        "SELECT tab, vals, s, ss FROM bt_version ORDER BY tab, vals, s, ss",
        &[],
    )?;
    Ok(repeat_key(&keys))
}
