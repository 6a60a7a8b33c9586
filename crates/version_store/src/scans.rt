//! Version rows passed to a visitor, one at a time, as they are read; and all of a table.

ghost use Rattle.std.specs.Prelude.{◌≡◌, ◌⊎◌, ℤ, Bool, false, true, IfErr, IfOk, IsOk};
ghost use Rattle.std.specs.Prelude.{MatchOption, None, OnErr, OnOk};
ghost use Rattle.std.specs.List.{All};
ghost use Rattle.period_core.specs.Encoding.{IsColumnValue};
ghost use Rattle.period_core.specs.declared.refusal.Refusal.TheVariants.{Memory};
ghost use Rattle.period_core.specs.Windows.{window_sees};
ghost use Rattle.period_core.specs.declared.version.VersionRow.{VersionRow as AnyRow};
ghost use Rattle.sqlite.specs.Held.{state};
ghost use Rattle.sqlite.specs.State.{HasCleanDisk};
ghost use Rattle.version_tables.specs.Represents.{shown};
ghost use Rattle.version_tables.specs.declared.form.Form.TheVariants.{Microseconds};
ghost use Rattle.version_tables.specs.Steps.{Keeps, KeepsFaults};
ghost use Rattle.version_store.specs.Contents.{AreDated, AreRowsOf, Contents, IsDated};
ghost use Rattle.version_store.specs.Contents.{TableVersion, version_in};
ghost use Rattle.version_store.specs.Scans.{AnswersRefusal, IsOwnRefusal, Selects, Visits};
ghost use Rattle.version_store.specs.Scans.{VisitsChosen, is_empty};
ghost use Rattle.version_store.specs.StoreState.{IsFailure, IsStoreRefusal, IsUsable};
ghost use Rattle.version_store.specs.Units.{in_microseconds, version_of};
ghost use Rattle.version_store.specs.Written.{Has, HasIn, written_version};

use crate::fault::refusal_of;
use crate::version_reader::read_version;
use crate::visitor::{RowCollector, RowVisitor};
use period_core::{Moment, Refusal, VersionRow, Window};
use sqlite::{Connection, Row};
use sqlite_trees::store::Alter;
use std::alloc::Global;
use version_tables::{Form, Selection, rows_of, to_next_row};

/// The versions that a window sees, as the query selects them, or none if it is empty.
fn selection_of(window: Window) -> Option<Selection>
    ensures { MatchOption result (is_empty window ≡ true)
        (λ selection. (is_empty window ≡ false)
        × Selects Microseconds selection (window_sees window)) }
{
    match window {
        Window::Now => Some(Selection::EndingAt(Moment::forever().number())),
        Window::AsOf(at) => {
            if at == Moment::forever() {
                return None;
            }
            Some(Selection::Overlapping(at.number(), at.number() + 1))
        }
        Window::FromTo(start, end) => {
            if end <= start {
                return None;
            }
            Some(Selection::Overlapping(start.number(), end.number()))
        }
        Window::Between(start, last) => {
            if last < start {
                return None;
            }
            Some(Selection::Overlapping(start.number(), last.number() + 1))
        }
    }
}

/// Passes the version row that a row of the query shows, with its numbers in the form's unit, to
/// the visitor. The row of a version that can be read is refused for memory alone, or by the
/// visitor.
fn visit_row<V: RowVisitor>(
    alloc: Global,
    form: Form,
    row: &Row,
    visitor: &mut V,
) -> Result<(), Refusal>
    requires { V.answered visitor.old None }
    ensures visited { OnOk result ((version : TableVersion)
        → (row.now ≡ shown (written_version version)) → All IsColumnValue version.values
        → (read : AnyRow) × (version_in version.table read ≡ version_of form version)
        × (V.meaning visitor.new ≡ V.next (V.meaning visitor.old) read)) }
    ensures refused { OnErr result (V.meaning visitor.new ≡ V.meaning visitor.old) }
    ensures named { IfErr result (λ refusal. IsStoreRefusal refusal ⊎ V.may_refuse refusal) }
    ensures answered { AnswersRefusal (V.answered visitor.new) result }
    ensures why { (version : TableVersion) → IsDated (version_of form version)
        → All IsColumnValue version.values → (row.now ≡ shown (written_version version))
        → IfErr result (λ refusal.
        IsOwnRefusal V.may_refuse (V.answered visitor.new) refusal ⊎ (refusal ≡ Memory)) }
{
    let version = read_version(alloc, form, row)?;
    visitor.visit(version)
}

/// Passes the selected version rows of the table of a number to the visitor, in order. The
/// database is of the form, and the selection is in its unit.
fn scan_selected<S: Alter, V: RowVisitor>(
    alloc: Global,
    form: Form,
    connection: &mut Connection<S>,
    table: u8,
    selection: Selection,
    visitor: &mut V,
) -> Result<(), Refusal>
    requires settled { connection.old.in_transaction ≡ false }
    requires takes { V.answered visitor.old None }
    ensures visited { HasCleanDisk (state S.Store connection.new)
        → (c : Contents) → HasIn form (state S.Store connection.old).now c
        → (chooses : ℤ → ℤ → Bool) → Selects form selection chooses
        → VisitsChosen V.next (in_microseconds form c) table chooses
        (V.meaning visitor.old) (V.meaning visitor.new) result }
    ensures why { IsUsable S.Store connection.new
        → (c : Contents) → HasIn form (state S.Store connection.old).now c
        → AreDated (in_microseconds form c).versions
        → IfErr result (λ refusal. IsOwnRefusal V.may_refuse (V.answered visitor.new) refusal
        ⊎ IsFailure S.Store connection.old connection.new refusal) }
    ensures same { HasCleanDisk (state S.Store connection.new)
        → Keeps (state S.Store connection.old) (state S.Store connection.new) }
    ensures clean { HasCleanDisk (state S.Store connection.new)
        → HasCleanDisk (state S.Store connection.old) }
    ensures mode { connection.new.in_transaction ≡ false }
    ensures faults { KeepsFaults (state S.Store connection.old) (state S.Store connection.new) }
    ensures named { IfErr result (λ refusal. IsStoreRefusal refusal ⊎ V.may_refuse refusal) }
    ensures answered { AnswersRefusal (V.answered visitor.new) result }
{
    let mut rows = match rows_of(connection, u32::from(table), selection) {
        Ok(rows) => rows,
        Err(error) => return Err(refusal_of(&error)),
    };
    // The query ends the loop. Its bound shows that it ends in any case.
    'rows: for _ in 0..u64::MAX {
        if let Err(error) = to_next_row(&mut rows) {
            return Err(refusal_of(&error));
        }
        let Some(row) = rows.get() else {
            return Ok(());
        };
        if let Err(refusal) = visit_row(alloc, form, row, visitor) {
            return Err(refusal);
        }
    }
    Err(Refusal::Memory)
}

/// Passes the version rows of the table of a number that the window sees to the visitor, in
/// order. If the window is empty, the database is not called.
pub(crate) fn scan_rows<S: Alter, V: RowVisitor>(
    alloc: Global,
    connection: &mut Connection<S>,
    table: u8,
    window: Window,
    visitor: &mut V,
) -> Result<(), Refusal>
    requires settled { connection.old.in_transaction ≡ false }
    requires takes { V.answered visitor.old None }
    ensures visited { HasCleanDisk (state S.Store connection.new)
        → (c : Contents) → Has (state S.Store connection.old).now c → AreDated c.versions
        → Visits V.next c table window (V.meaning visitor.old) (V.meaning visitor.new) result }
    ensures why { IsUsable S.Store connection.new
        → (c : Contents) → Has (state S.Store connection.old).now c → AreDated c.versions
        → IfErr result (λ refusal. IsOwnRefusal V.may_refuse (V.answered visitor.new) refusal
        ⊎ IsFailure S.Store connection.old connection.new refusal) }
    ensures same { HasCleanDisk (state S.Store connection.new)
        → Keeps (state S.Store connection.old) (state S.Store connection.new) }
    ensures clean { HasCleanDisk (state S.Store connection.new)
        → HasCleanDisk (state S.Store connection.old) }
    ensures mode { connection.new.in_transaction ≡ false }
    ensures faults { KeepsFaults (state S.Store connection.old) (state S.Store connection.new) }
    ensures empty { is_empty window ≡ true → IsOk result × (connection.new ≡ connection.old)
        × (V.meaning visitor.new ≡ V.meaning visitor.old) }
    ensures named { IfErr result (λ refusal. IsStoreRefusal refusal ⊎ V.may_refuse refusal) }
    ensures answered { AnswersRefusal (V.answered visitor.new) result }
{
    match selection_of(window) {
        Some(selection) => {
            let form = Form::Microseconds;
            scan_selected(alloc, form, connection, table, selection, visitor)
        }
        None => Ok(()),
    }
}

/// The version rows of the table of a number, in order. The database is of the form.
pub(crate) fn table_rows<S: Alter>(
    alloc: Global,
    form: Form,
    connection: &mut Connection<S>,
    table: u8,
) -> Result<Vec<VersionRow>, Refusal>
    requires { connection.old.in_transaction ≡ false }
    ensures rows { HasCleanDisk (state S.Store connection.new)
        → (c : Contents) → HasIn form (state S.Store connection.old).now c
        → IfOk result (λ rows. AreRowsOf (in_microseconds form c) table rows.items) }
    ensures why { IsUsable S.Store connection.new
        → (c : Contents) → HasIn form (state S.Store connection.old).now c
        → AreDated (in_microseconds form c).versions
        → IfErr result (IsFailure S.Store connection.old connection.new) }
    ensures same { HasCleanDisk (state S.Store connection.new)
        → Keeps (state S.Store connection.old) (state S.Store connection.new) }
    ensures clean { HasCleanDisk (state S.Store connection.new)
        → HasCleanDisk (state S.Store connection.old) }
    ensures faults { KeepsFaults (state S.Store connection.old) (state S.Store connection.new) }
    ensures mode { connection.new.in_transaction ≡ false }
    ensures named { IfErr result IsStoreRefusal }
{
    let mut kept = RowCollector::new(alloc);
    scan_selected(alloc, form, connection, table, Selection::Whole, &mut kept)?;
    Ok(kept.rows)
}
