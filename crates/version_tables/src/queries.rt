//! The queries. Each is run outside a transaction. A query of versions gives its rows in turn,
//! every other one all its rows at once.

ghost use Rattle.std.specs.Prelude.{◌≡◌, List, [], false, map, IfOk, OnErr, OnOk};
ghost use Rattle.std.specs.Prelude.{IsPermutation};
ghost use Rattle.std.specs.Borrow.{sem, RestsIfErr};
ghost use Rattle.sqlite.specs.contracts.connection.Connection.{the_row};
ghost use Rattle.sqlite.specs.Given.{row_if};
ghost use Rattle.sqlite.specs.Held.{Held, state};
ghost use Rattle.sqlite.specs.Order.{Row as Values};
ghost use Rattle.sqlite.specs.State.{HasCleanDisk};
ghost use Rattle.version_tables.specs.Giving.{GivesNext, HasGivenRows, IsAfterQuery, HasNotBegun};
ghost use Rattle.version_tables.specs.Represents.{meta_shown, rowid_shown, table_shown};
ghost use Rattle.version_tables.specs.Selections.{VersionQuery, OfAllTables, OfTable};
ghost use Rattle.version_tables.specs.Rows.{InOrder, by_rowid};
ghost use Rattle.version_tables.specs.Steps.{FailsWithReason, OnlyReads, ReturnsRows};

use crate::selection::Selection;
use sqlite::{Alter, Connection, Error, Row, Rows, params};

/// The query of the selected versions of the table of a number, which gives one row at a time: by
/// values, then period start, then system start. A row has the values' bytes, the two days and the
/// two moments.
pub fn rows_of<S: Alter>(
    connection: &mut Connection<S>,
    table: u32,
    selection: Selection,
) -> Result<Rows<'_, S>, Error>
    requires { connection.old.in_transaction ≡ false }
    ensures* refused { sem 𝓛 (RestsIfErr (the_row S.row S.Store) connection.entry
        (λ rows. rows.conn.ghost_name) result (HasNotBegun S.Store connection.old result)) }
    ensures same_reference { IfOk result
        (λ rows. rows.conn.ghost_name ≡ connection.entry.ghost_name) }
    ensures begun { IfOk result
        (λ rows. HasGivenRows S.Store (OfTable table selection) connection.old
        rows.conn.now []) }
    ensures mode { IfOk result (λ rows. rows.conn.now.in_transaction ≡ false) }
{
    // For the proof alone: whether a transaction is open is known by this call.
    let _settled = connection.is_autocommit();
    match selection {
        Selection::Whole => connection.query(
            "SELECT vals, s, e, ss, se FROM bt_version WHERE tab = ?1 ORDER BY vals, s, ss",
            params![table],
        ),
        Selection::EndingAt(end) => connection.query(
            "SELECT vals, s, e, ss, se FROM bt_version WHERE tab = ?1 AND se = ?2 \
             ORDER BY vals, s, ss",
            params![table, end],
        ),
        Selection::Overlapping(start, end) => connection.query(
            "SELECT vals, s, e, ss, se FROM bt_version WHERE tab = ?1 AND ss < ?3 AND ?2 < se \
             ORDER BY vals, s, ss",
            params![table, start, end],
        ),
    }
}

/// The query of all versions, which gives one row at a time, in any order. A row has the table's
/// number, the values' bytes, the two days and the two moments.
pub fn version_rows<S: Alter>(connection: &mut Connection<S>) -> Result<Rows<'_, S>, Error>
    requires { connection.old.in_transaction ≡ false }
    ensures* refused { sem 𝓛 (RestsIfErr (the_row S.row S.Store) connection.entry
        (λ rows. rows.conn.ghost_name) result (HasNotBegun S.Store connection.old result)) }
    ensures same_reference { IfOk result
        (λ rows. rows.conn.ghost_name ≡ connection.entry.ghost_name) }
    ensures begun { IfOk result
        (λ rows. HasGivenRows S.Store OfAllTables connection.old rows.conn.now []) }
    ensures mode { IfOk result (λ rows. rows.conn.now.in_transaction ≡ false) }
{
    // For the proof alone: whether a transaction is open is known by this call.
    let _settled = connection.is_autocommit();
    // By no order: in that of the key each row would be looked up by its index entry.
    connection.query("SELECT tab, vals, s, e, ss, se FROM bt_version", &[])
}

/// Moves to the next row of either query, or past the last. An error ends the query.
pub fn to_next_row<S: Alter>(rows: &mut Rows<'_, S>) -> Result<(), Error>
    ensures same_reference { rows.new.conn.ghost_name ≡ rows.old.conn.ghost_name }
    ensures gives { (query : VersionQuery) (first : Held S) (given : List Values)
        → HasGivenRows S.Store query first rows.old.conn.now given
        → OnOk result (GivesNext S.Store query first rows.new.conn.now given
        (row_if rows.new.has_row rows.new.conn.now)) }
    ensures left { (query : VersionQuery) (first : Held S) (given : List Values)
        → HasGivenRows S.Store query first rows.old.conn.now given
        → OnErr result (IsAfterQuery S.Store first rows.new.conn.now) }
    ensures why { (query : VersionQuery) (first : Held S) (given : List Values)
        → HasGivenRows S.Store query first rows.old.conn.now given
        → FailsWithReason S.Store first rows.new.conn.now result }
    ensures clean { HasCleanDisk (state S.Store rows.new.conn.now)
        → HasCleanDisk (state S.Store rows.old.conn.now) }
    ensures mode { rows.old.conn.now.in_transaction ≡ false
        → rows.new.conn.now.in_transaction ≡ false }
{
    rows.advance()
}

/// The rows of bt_meta: each has the number, the form and the clock.
pub fn meta_rows<S: Alter>(connection: &mut Connection<S>) -> Result<Vec<Row>, Error>
    requires { connection.old.in_transaction ≡ false }
    ensures shows { ReturnsRows S.Store connection.old connection.new result
        (λ db rows. IsPermutation (map meta_shown (db.trees 0)) rows) }
    ensures reads { OnlyReads S.Store connection.old connection.new result }
    ensures mode { connection.new.in_transaction ≡ false }
{
    // For the proof alone: whether a transaction is open is known by this call.
    let _settled = connection.is_autocommit();
    connection.query_all("SELECT id, form, clock FROM bt_meta ORDER BY id", &[])
}

/// The rows of bt_table by their numbers: each has the number and the definition's bytes.
pub fn table_rows<S: Alter>(connection: &mut Connection<S>) -> Result<Vec<Row>, Error>
    requires { connection.old.in_transaction ≡ false }
    ensures shows { ReturnsRows S.Store connection.old connection.new result
        (λ db rows. InOrder table_shown by_rowid (db.trees 1) rows) }
    ensures reads { OnlyReads S.Store connection.old connection.new result }
    ensures mode { connection.new.in_transaction ≡ false }
{
    // For the proof alone: whether a transaction is open is known by this call.
    let _settled = connection.is_autocommit();
    connection.query_all("SELECT id, def FROM bt_table ORDER BY id", &[])
}

/// The rowids of bt_version, by themselves.
pub fn rowids<S: Alter>(connection: &mut Connection<S>) -> Result<Vec<Row>, Error>
    requires { connection.old.in_transaction ≡ false }
    ensures shows { ReturnsRows S.Store connection.old connection.new result
        (λ db rows. InOrder rowid_shown by_rowid (db.trees 2) rows) }
    ensures reads { OnlyReads S.Store connection.old connection.new result }
    ensures mode { connection.new.in_transaction ≡ false }
{
    // For the proof alone: whether a transaction is open is known by this call.
    let _settled = connection.is_autocommit();
    connection.query_all("SELECT rowid FROM bt_version ORDER BY rowid", &[])
}
