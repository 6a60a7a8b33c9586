//! The changes, each one statement inside a transaction that the caller opens and commits. Days and
//! moments are numbers of the calendar. Over a healthy database each is refused for nothing but
//! memory and faults, and leaves the database healthy.

ghost use Rattle.std.specs.Prelude.{◌≡◌, ◌+◌, length, OnOk};
ghost use Rattle.version_tables.specs.Keeping.{LeavesOthers};
ghost use Rattle.version_tables.specs.Represents.{ended, key_of, removed};
ghost use Rattle.version_tables.specs.Represents.{with_clock, with_definition, with_ends};
ghost use Rattle.version_tables.specs.Healthy.{IsShort};
ghost use Rattle.version_tables.specs.Steps.{ChangeFailsWithReason, ChangesKey, ChangesRecords};
ghost use Rattle.version_tables.specs.Steps.{ChangesWhere, CommitsNothing, StaysHealthy};

use sqlite::{Alter, Error, Transaction, params};

/// Removes the version that has this key, if there is one: the table's number, the values' bytes,
/// the first day of the period, the first moment of the system time.
pub fn remove_version<S: Alter>(
    transaction: &mut Transaction<'_, S>,
    table: u32,
    values: &[u8],
    start: i64,
    from: i64,
) -> Result<usize, Error>
    ensures same_reference { transaction.new.conn.ghost_name ≡ transaction.old.conn.ghost_name }
    ensures made { ChangesRecords S.Store transaction.old.conn.now transaction.new.conn.now result
        (removed (key_of table values.now start from)) }
    ensures others { OnOk result
        (LeavesOthers S.Store transaction.old.conn.now transaction.new.conn.now) }
    ensures inside { CommitsNothing S.Store transaction.old.conn.now transaction.new.conn.now }
    ensures why { ChangeFailsWithReason S.Store transaction.old.conn.now transaction.new.conn.now
        result 0 (λ _ _. Unit {0}) }
    ensures healthy { StaysHealthy S.Store transaction.old.conn.now transaction.new.conn.now
        result 0 (λ _. Unit {0}) }
{
    transaction.execute(
        "DELETE FROM bt_version WHERE tab = ?1 AND vals = ?2 AND s = ?3 AND ss = ?4",
        params![table, values, start, from],
    )
}

/// Ends the system time of the version that has this key, if there is one, at the moment `to`.
pub fn end_version<S: Alter>(
    transaction: &mut Transaction<'_, S>,
    table: u32,
    values: &[u8],
    start: i64,
    from: i64,
    to: i64,
) -> Result<usize, Error>
    ensures same_reference { transaction.new.conn.ghost_name ≡ transaction.old.conn.ghost_name }
    ensures made { ChangesRecords S.Store transaction.old.conn.now transaction.new.conn.now result
        (ended (key_of table values.now start from) to) }
    ensures others { OnOk result
        (LeavesOthers S.Store transaction.old.conn.now transaction.new.conn.now) }
    ensures inside { CommitsNothing S.Store transaction.old.conn.now transaction.new.conn.now }
    ensures why { ChangeFailsWithReason S.Store transaction.old.conn.now transaction.new.conn.now
        result 0 (λ _ _. IsShort values.now) }
    ensures healthy { StaysHealthy S.Store transaction.old.conn.now transaction.new.conn.now
        result 0 (λ _. Unit {0}) }
{
    transaction.execute(
        "UPDATE bt_version SET se = ?5 WHERE tab = ?1 AND vals = ?2 AND s = ?3 AND ss = ?4",
        params![table, values, start, from, to],
    )
}

/// Moves the ends of the version that has this key, if there is one, and answers how many have it:
/// its period ends before the day `end`, its system time before the moment `to`.
pub fn move_ends<S: Alter>(
    transaction: &mut Transaction<'_, S>,
    table: u32,
    values: &[u8],
    start: i64,
    from: i64,
    end: i64,
    to: i64,
) -> Result<usize, Error>
    ensures same_reference { transaction.new.conn.ghost_name ≡ transaction.old.conn.ghost_name }
    ensures made { ChangesKey S.Store transaction.old.conn.now transaction.new.conn.now result
        (key_of table values.now start from) (with_ends end to) }
    ensures others { OnOk result
        (LeavesOthers S.Store transaction.old.conn.now transaction.new.conn.now) }
    ensures inside { CommitsNothing S.Store transaction.old.conn.now transaction.new.conn.now }
    ensures why { ChangeFailsWithReason S.Store transaction.old.conn.now transaction.new.conn.now
        result 0 (λ _ _. IsShort values.now) }
    ensures healthy { StaysHealthy S.Store transaction.old.conn.now transaction.new.conn.now
        result 0 (λ _. Unit {0}) }
{
    transaction.execute(
        "UPDATE bt_version SET e = ?5, se = ?6 \
         WHERE tab = ?1 AND vals = ?2 AND s = ?3 AND ss = ?4",
        params![table, values, start, from, end, to],
    )
}

/// Adds the bytes of a definition under this number. The contract says what that makes if the
/// number follows the earlier ones' numbers.
pub fn insert_definition<S: Alter>(
    transaction: &mut Transaction<'_, S>,
    id: u32,
    definition: &[u8],
) -> Result<usize, Error>
    ensures same_reference { transaction.new.conn.ghost_name ≡ transaction.old.conn.ghost_name }
    ensures made { ChangesWhere S.Store transaction.old.conn.now transaction.new.conn.now result
        (λ records. id ≡ length records.tables + 1) (with_definition definition.now) }
    ensures others { OnOk result
        (LeavesOthers S.Store transaction.old.conn.now transaction.new.conn.now) }
    ensures inside { CommitsNothing S.Store transaction.old.conn.now transaction.new.conn.now }
    ensures why { ChangeFailsWithReason S.Store transaction.old.conn.now transaction.new.conn.now
        result 0 (λ _ records.
        (id ≡ length records.tables + 1) × IsShort definition.now) }
    ensures healthy { StaysHealthy S.Store transaction.old.conn.now transaction.new.conn.now
        result 0 (λ _. Unit {0}) }
{
    transaction.execute(
        "INSERT INTO bt_table (id, def) VALUES (?1, ?2)",
        params![id, definition],
    )
}

/// Sets the clock to a moment.
pub fn set_clock<S: Alter>(transaction: &mut Transaction<'_, S>, clock: i64) -> Result<usize, Error>
    ensures same_reference { transaction.new.conn.ghost_name ≡ transaction.old.conn.ghost_name }
    ensures made { ChangesRecords S.Store transaction.old.conn.now transaction.new.conn.now result
        (with_clock clock) }
    ensures others { OnOk result
        (LeavesOthers S.Store transaction.old.conn.now transaction.new.conn.now) }
    ensures inside { CommitsNothing S.Store transaction.old.conn.now transaction.new.conn.now }
    ensures why { ChangeFailsWithReason S.Store transaction.old.conn.now transaction.new.conn.now
        result 0 (λ _ _. Unit {0}) }
    ensures healthy { StaysHealthy S.Store transaction.old.conn.now transaction.new.conn.now
        result 0 (λ _. Unit {0}) }
{
    transaction.execute("UPDATE bt_meta SET clock = ?1", params![clock])
}
