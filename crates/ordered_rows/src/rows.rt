//! The rows, and their edits.

ghost use Rattle.std.specs.Prelude.{◌≡◌, ◌<◌, ◌≤◌, [], IfOk, IsTrue, OnErr, drop, length};
ghost use Rattle.std.specs.Prelude.{slice_set};
ghost use Rattle.sqlite_trees.specs.Tree.{IsIndex, from_key, insert_entry, order_of, put_row};
ghost use Rattle.sqlite_trees.specs.Tree.{remove_entry, rowid, sought, without_rowid};
ghost use Rattle.sqlite_trees.specs.View.{Finds, IsShaped, is_int};
ghost use Rattle.sqlite_value.specs.Keys.{prefix_cmp};
ghost use Rattle.ordered_rows.specs.Cursors.{Gives, left};
ghost use Rattle.ordered_rows.specs.Edits.{IsCut, IsPlaced, inserted, removed};
ghost use Rattle.ordered_rows.specs.Forks.{most};
ghost use Rattle.ordered_rows.specs.LastKeys.{EndBelow};
ghost use Rattle.ordered_rows.specs.Seeks.{IsSeekable};
ghost use Rattle.ordered_rows.specs.Targets.{side};
ghost use Rattle.ordered_rows.specs.Undos.{Undoes, undone};

use crate::abbreviated_key::AbbreviatedKey;
use crate::cursor::RowCursor;
use crate::stored_row::StoredRow;
use crate::target::{Probe, Target};
use crate::tree::{BalancedTree, Fork};
use crate::undo::{InverseEdit, Undo};
use sqlite_trees::store::{Direction, Shape};
use sqlite_value::keys::Order;
use sqlite_value::row::Row;
use sqlite_value::value::ValueRef;
use std::alloc::{AllocError, Global};
use std::marker::Model;

/// Rows in order, which contracts see as their list. The abbreviated key of the last row is kept
/// while rows are added after the last one, so that the place of the next one is known by it.
#[derive(Drop)]
pub struct OrderedRows {
    alloc: Global,
    tree: BalancedTree,
    last: Option<AbbreviatedKey>,
}

impl Model for OrderedRows {
    ghost use Rattle.std.specs.Prelude.{List};
    ghost use Rattle.std.specs.Coded.{coded_list};
    ghost use Rattle.sqlite_value.specs.Order.{Row as AnyRow};
    ghost use Rattle.sqlite_value.specs.contracts.row.Row.{the_row};

    ghost Value = { List AnyRow };

    ghost coded = { coded_list the_row.coded };

    ghost view = { λ r. r.tree.rows };

    ghost use Rattle.std.specs.Prelude.{IfSome};
    ghost use Rattle.ordered_rows.specs.LastKeys.{IsLastKey};

    ghost invariant = { λ r. IfSome r.last (IsLastKey r.tree.rows) };
}

impl OrderedRows {
    /// No rows.
    pub fn new(alloc: Global) -> OrderedRows
        ensures { result ≡ [] }
    {
        OrderedRows {
            alloc,
            tree: BalancedTree::empty(),
            last: None,
        }
    }

    /// Writes the row that has the rowid over `row`, or answers false.
    pub fn get(&self, id: i64, row: &mut Row) -> Result<bool, AllocError>
        requires { IsShaped Shape.Table self.now }
        ensures { IfOk result (Finds self.now id row.new) }
    {
        if self.ends_below(Target::Rowid(id)) {
            return Ok(false);
        }
        self.tree.find(Target::Rowid(id), row)
    }

    /// Inserts the row, or replaces the one that has its rowid.
    pub fn put(&mut self, row: &Row) -> Result<Undo, AllocError>
        requires table { IsShaped Shape.Table self.old }
        requires keyed { IsTrue (is_int (rowid row.now)) }
        ensures ok { IfOk result (Undoes self.old self.new (put_row row.now)) }
        ensures err { OnErr result (self.new ≡ self.old) }
    {
        let ValueRef::Int(id) = row.get(0) else {
            unreachable!()
        };
        let (at, found) = self.placed(Target::Rowid(id))?;
        let new = StoredRow::new(self.alloc, row)?;
        if found {
            Ok(self.replace(at, new))
        } else {
            self.add(at, new)
        }
    }

    /// Removes the row that has the rowid, if there is one.
    pub fn delete(&mut self, id: i64) -> Result<Undo, AllocError>
        requires { IsShaped Shape.Table self.old }
        ensures ok { IfOk result (Undoes self.old self.new (without_rowid id)) }
        ensures err { OnErr result ((self.new ≡ self.old) × (most ≤ length self.old)) }
    {
        let (at, found) = self.placed(Target::Rowid(id))?;
        if found {
            Ok(self.take_out(at))
        } else {
            Ok(Undo::nothing())
        }
    }

    /// Inserts the entry, unless an equal one exists.
    pub fn insert(&mut self, order: Order, entry: &Row) -> Result<Undo, AllocError>
        requires { IsIndex order self.old }
        ensures ok { IfOk result (Undoes self.old self.new (insert_entry order entry.now)) }
        ensures err { OnErr result (self.new ≡ self.old) }
    {
        let probe = Probe::new(order, entry);
        let (at, found) = self.placed(Target::Entry(&probe))?;
        if found {
            Ok(Undo::nothing())
        } else {
            let new = StoredRow::new(self.alloc, entry)?;
            self.add(at, new)
        }
    }

    /// Removes the entry that equals this one, if there is one.
    pub fn remove(&mut self, order: Order, entry: &Row) -> Result<Undo, AllocError>
        requires { IsIndex order self.old }
        ensures ok { IfOk result (Undoes self.old self.new (remove_entry order entry.now)) }
        ensures err { OnErr result ((self.new ≡ self.old) × (most ≤ length self.old)) }
    {
        let probe = Probe::new(order, entry);
        let (at, found) = self.placed(Target::Entry(&probe))?;
        if found {
            Ok(self.take_out(at))
        } else {
            Ok(Undo::nothing())
        }
    }

    /// Undoes an edit, if no other came after it.
    pub fn undo(&mut self, undo: Undo)
        ensures { self.new ≡ undone undo self.old }
    {
        let Undo { inverse } = undo;
        match inverse {
            InverseEdit::Nothing => {}
            InverseEdit::Out(at) => {
                self.take_out(at);
            }
            InverseEdit::In(at, fork) => {
                self.last = None;
                self.tree = self.tree.take().inserted(at, fork);
            }
            InverseEdit::Over(at, row) => {
                self.replace(at, row);
            }
        }
    }

    /// A cursor at the first row that is not below the key, or at the last that is not above it.
    pub fn seek(
        &self,
        shape: Shape,
        key: &Row,
        direction: Direction,
    ) -> Result<RowCursor, AllocError>
        requires { IsShaped shape self.now }
        ensures ok { IfOk result (λ cursor. left cursor self.now
            ≡ sought (order_of shape) direction key.now self.now) }
        ensures err { OnErr result (most ≤ length self.now) }
    {
        let probe = Probe::new(key_order(shape), key);
        let at = match direction {
            Direction::Forward => self.rank_from(&probe),
            Direction::Backward => self.tree.rank_up_to(&probe),
        };
        if at == u32::MAX {
            return Err(AllocError);
        }
        Ok(RowCursor { direction, at })
    }

    /// Writes the cursor's next row over `row` and moves past it, or answers false if none is
    /// left.
    pub fn next(&self, cursor: &mut RowCursor, row: &mut Row) -> Result<bool, AllocError>
        ensures ok { IfOk result
            (Gives (left cursor.old self.now) (left cursor.new self.now) row.new) }
        ensures err { OnErr result (cursor.new ≡ cursor.old) }
    {
        let (at, after) = match cursor.direction {
            Direction::Forward => (cursor.at, cursor.at.saturating_add(1)),
            Direction::Backward => {
                let rest = cursor.at.min(self.tree.count());
                if rest == 0 {
                    return Ok(false);
                }
                (rest - 1, rest - 1)
            }
        };
        if at == u32::MAX {
            return Err(AllocError);
        }
        let Some(found) = self.tree.nth(at) else {
            return Ok(false);
        };
        row.copy_from(found.row())?;
        cursor.at = after;
        Ok(true)
    }

    // Whether the key of the last row shows that this is below the target.
    fn ends_below(&self, target: Target<'_>) -> bool
        ensures { IsTrue result → EndBelow (side target.entry) self.now }
    {
        match self.last {
            Some(last) => target.is_above(last),
            None => false,
        }
    }

    // Whether the key of the last row shows that this is before the probe's key.
    fn ends_before(&self, probe: &Probe<'_>) -> bool
        ensures { IsTrue result
            → EndBelow (λ r. prefix_cmp probe.now.order r probe.now.row.now) self.now }
    {
        match self.last {
            Some(last) => probe.cmp_abbreviated(last).is_lt(),
            None => false,
        }
    }

    // The number of the rows below the target, and whether there is one at it.
    fn rank(&self, target: Target<'_>) -> (u32, bool)
        requires { IsCut (side target) self.now }
        ensures within { result.0 ≤ length self.now }
        ensures is { result.0 < most → IsPlaced (side target.entry) self.now result.0 result.1 }
    {
        if self.ends_below(target) {
            (self.tree.count(), false)
        } else {
            self.tree.rank(target)
        }
    }

    // The number of the rows below the key, where a cursor forward begins.
    fn rank_from(&self, probe: &Probe<'_>) -> u32
        requires { IsSeekable probe.now.order probe.now.row.now self.now }
        ensures within { result ≤ length self.now }
        ensures is { result < most
            → from_key probe.now.order probe.now.row.now self.now ≡ drop result self.now }
    {
        if self.ends_before(probe) {
            self.tree.count()
        } else {
            self.tree.rank_from(probe)
        }
    }

    // The rank of the target, and whether a row exists. It fails if the rank does not fit 32
    // bits.
    fn placed(&self, target: Target<'_>) -> Result<(u32, bool), AllocError>
        requires { IsCut (side target) self.now }
        ensures ok { IfOk result (λ found. (found.0 < most)
            × IsPlaced (side target.entry) self.now found.0 found.1) }
        ensures err { OnErr result (most ≤ length self.now) }
    {
        let (at, found) = self.rank(target);
        if at == u32::MAX {
            return Err(AllocError);
        }
        Ok((at, found))
    }

    // A new row before the one with this number.
    fn add(&mut self, at: u32, new: StoredRow) -> Result<Undo, AllocError>
        requires low { at < most }
        requires within { at ≤ length self.old }
        ensures ok { IfOk result (Undoes self.old self.new (inserted at new)) }
        ensures err { OnErr result (self.new ≡ self.old) }
    {
        let last = if at == self.tree.count() {
            Some(new.abbreviated())
        } else {
            None
        };
        let (left, right) = (BalancedTree::empty(), BalancedTree::empty());
        let fork = Box::new(
            self.alloc,
            Fork {
                left,
                right,
                row: new,
            },
        )?;
        self.last = last;
        self.tree = self.tree.take().inserted(at, fork);
        Ok(Undo {
            inverse: InverseEdit::Out(at),
        })
    }

    // A new row over the one with this number.
    fn replace(&mut self, at: u32, new: StoredRow) -> Undo
        requires { at < most }
        ensures { Undoes self.old self.new (λ rows. slice_set rows at new) result }
    {
        self.last = None;
        let (tree, taken) = self.tree.take().replaced(at, new);
        self.tree = tree;
        match taken {
            Some(old) => Undo {
                inverse: InverseEdit::Over(at, old),
            },
            None => Undo::nothing(),
        }
    }

    // Takes out the row with this number.
    fn take_out(&mut self, at: u32) -> Undo
        requires { at < most }
        ensures { Undoes self.old self.new (removed at) result }
    {
        self.last = None;
        let (tree, taken) = self.tree.take().removed(at);
        self.tree = tree;
        match taken {
            Some(fork) => Undo {
                inverse: InverseEdit::In(at, fork),
            },
            None => Undo::nothing(),
        }
    }
}

/// The order of an index's entries, and the plain one for a table's rows.
fn key_order(shape: Shape) -> Order
    ensures { result ≡ order_of shape }
{
    match shape {
        Shape::Index(order) | Shape::FrozenIndex(order) => order,
        Shape::Absent | Shape::Table | Shape::Pageless | Shape::FrozenTable => Order::PLAIN,
    }
}
