//! The move of a store from form 1 to form 2, inside a transaction that the caller opens and
//! commits: each statement changes all rows, so that no two of them are of one key in between.

ghost use Rattle.std.specs.Prelude.{◌≡◌, OnOk};
ghost use Rattle.version_tables.specs.Forms.{form_number};
ghost use Rattle.version_tables.specs.Healthy.{AreShort};
ghost use Rattle.version_tables.specs.Keeping.{LeavesOthers};
ghost use Rattle.version_tables.specs.Moves.{AreInSeconds, HaveSeconds, IsInSeconds, moved};
ghost use Rattle.version_tables.specs.Moves.{with_moved_versions};
ghost use Rattle.version_tables.specs.Represents.{with_form};
ghost use Rattle.version_tables.specs.Steps.{ChangeFailsWithReason, ChangesRecords};
ghost use Rattle.version_tables.specs.Steps.{ChangesWhere, CommitsNothing, StaysHealthy};

use crate::form::Form;
use sqlite::{Alter, Error, Transaction, params};

/// Counts the moments of the versions in microseconds, if they are seconds: an end that is open
/// stays open.
fn move_versions<S: Alter>(transaction: &mut Transaction<'_, S>) -> Result<usize, Error>
    ensures same_reference { transaction.new.conn.ghost_name ≡ transaction.old.conn.ghost_name }
    ensures made { ChangesWhere S.Store transaction.old.conn.now transaction.new.conn.now result
        HaveSeconds with_moved_versions }
    ensures others { OnOk result
        (LeavesOthers S.Store transaction.old.conn.now transaction.new.conn.now) }
    ensures inside { CommitsNothing S.Store transaction.old.conn.now transaction.new.conn.now }
    ensures why { ChangeFailsWithReason S.Store transaction.old.conn.now transaction.new.conn.now
        result 0 (λ _ records. HaveSeconds records × AreShort records.versions) }
    ensures healthy { StaysHealthy S.Store transaction.old.conn.now transaction.new.conn.now
        result 0 (λ _. Unit {0}) }
{
    let open_end = Form::Seconds.open_end();
    let forever = Form::Microseconds.open_end();
    transaction.execute(
        "UPDATE bt_version SET ss = ss * 1000000, \
         se = CASE WHEN se = ?1 THEN ?2 ELSE se * 1000000 END",
        params![open_end, forever],
    )
}

/// Sets the form and the clock.
fn set_form<S: Alter>(
    transaction: &mut Transaction<'_, S>,
    form: Form,
    clock: i64,
) -> Result<usize, Error>
    ensures same_reference { transaction.new.conn.ghost_name ≡ transaction.old.conn.ghost_name }
    ensures made { ChangesRecords S.Store transaction.old.conn.now transaction.new.conn.now result
        (with_form (form_number form) clock) }
    ensures others { OnOk result
        (LeavesOthers S.Store transaction.old.conn.now transaction.new.conn.now) }
    ensures inside { CommitsNothing S.Store transaction.old.conn.now transaction.new.conn.now }
    ensures why { ChangeFailsWithReason S.Store transaction.old.conn.now transaction.new.conn.now
        result 0 (λ _ _. Unit {0}) }
    ensures healthy { StaysHealthy S.Store transaction.old.conn.now transaction.new.conn.now
        result 0 (λ _. Unit {0}) }
{
    let number = form.number();
    transaction.execute(
        "UPDATE bt_meta SET form = ?1, clock = ?2",
        params![number, clock],
    )
}

/// Moves a store of form 1, whose moments are seconds, to form 2. The clock is given as the moment
/// at which its second begins. The contract says what that makes if it is that. Over a healthy
/// database whose versions are short it is refused for nothing but memory and faults, and leaves it
/// healthy.
pub fn move_to_microseconds<S: Alter>(
    transaction: &mut Transaction<'_, S>,
    clock: i64,
) -> Result<(), Error>
    ensures same_reference { transaction.new.conn.ghost_name ≡ transaction.old.conn.ghost_name }
    ensures made { ChangesWhere S.Store transaction.old.conn.now transaction.new.conn.now result
        (AreInSeconds clock) moved }
    ensures others { OnOk result
        (LeavesOthers S.Store transaction.old.conn.now transaction.new.conn.now) }
    ensures inside { CommitsNothing S.Store transaction.old.conn.now transaction.new.conn.now }
    ensures why { ChangeFailsWithReason S.Store transaction.old.conn.now transaction.new.conn.now
        result 0 (λ _ records. AreInSeconds clock records × AreShort records.versions) }
    ensures healthy { StaysHealthy S.Store transaction.old.conn.now transaction.new.conn.now
        result 0 IsInSeconds }
{
    move_versions(transaction)?;
    set_form(transaction, Form::Microseconds, clock)?;
    Ok(())
}
