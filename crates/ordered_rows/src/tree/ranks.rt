//! The rank of a row, or of the place where it would be: the number of the rows before it.

ghost use Rattle.std.specs.Prelude.{◌≡◌, ◌<◌, ◌≤◌, ◌+◌, IfOk, drop, length, min, take};
ghost use Rattle.sqlite_trees.specs.Tree.{from_key, up_to_key};
ghost use Rattle.ordered_rows.specs.Edits.{IsAt, IsCut, IsPlaced};
ghost use Rattle.ordered_rows.specs.Forks.{most};
ghost use Rattle.ordered_rows.specs.Targets.{side};
ghost use Rattle.ordered_rows.specs.Seeks.{IsSeekable};

use super::{BalancedTree, Fork, Link};
use crate::target::{Probe, Target};
use sqlite_value::row::Row;
use std::alloc::AllocError;
use std::cmp::Ordering;

impl BalancedTree {
    /// Writes the row at the target over `row`, or answers false.
    pub(crate) fn find(&self, target: Target<'_>, row: &mut Row) -> Result<bool, AllocError>
        requires { IsCut (side target) self.now.rows }
        ensures { IfOk result (IsAt (side target.entry) self.now.rows row.new) }
    {
        let Link::Fork(_, _, fork) = &self.root else {
            return Ok(false);
        };
        let fork = fork.as_ref();
        match target.side(&fork.row) {
            Ordering::Less => fork.right.find(target, row),
            Ordering::Greater => fork.left.find(target, row),
            Ordering::Equal => {
                row.copy_from(fork.row.row())?;
                Ok(true)
            }
        }
    }

    /// The number of the rows below the target, and whether there is one at it.
    pub(crate) fn rank(&self, target: Target<'_>) -> (u32, bool)
        requires { IsCut (side target) self.now.rows }
        ensures within { result.0 ≤ length self.now.rows }
        ensures is { result.0 < most
            → IsPlaced (side target.entry) self.now.rows result.0 result.1 }
    {
        let Link::Fork(_, _, fork) = &self.root else {
            return (0, false);
        };
        let fork = fork.as_ref();
        match target.side(&fork.row) {
            Ordering::Less => {
                let (at, found) = fork.right.rank(target);
                (fork.number_right(at), found)
            }
            Ordering::Equal => (fork.left.count(), true),
            Ordering::Greater => fork.left.rank(target),
        }
    }

    /// The number of the rows below the key, where a cursor forward begins.
    pub(crate) fn rank_from(&self, probe: &Probe<'_>) -> u32
        requires { IsSeekable probe.now.order probe.now.row.now self.now.rows }
        ensures within { result ≤ length self.now.rows }
        ensures is { result < most
            → from_key probe.now.order probe.now.row.now self.now.rows
            ≡ drop result self.now.rows }
    {
        let Link::Fork(_, _, fork) = &self.root else {
            return 0;
        };
        let fork = fork.as_ref();
        if fork.row.cmp_prefix(probe).is_lt() {
            let at = fork.right.rank_from(probe);
            fork.number_right(at)
        } else {
            fork.left.rank_from(probe)
        }
    }

    /// The number of the rows that are not above the key, where a cursor backward begins.
    pub(crate) fn rank_up_to(&self, probe: &Probe<'_>) -> u32
        requires { IsSeekable probe.now.order probe.now.row.now self.now.rows }
        ensures within { result ≤ length self.now.rows }
        ensures is { result < most
            → up_to_key probe.now.order probe.now.row.now self.now.rows
            ≡ take result self.now.rows }
    {
        let Link::Fork(_, _, fork) = &self.root else {
            return 0;
        };
        let fork = fork.as_ref();
        if fork.row.cmp_prefix(probe).is_gt() {
            fork.left.rank_up_to(probe)
        } else {
            let at = fork.right.rank_up_to(probe);
            fork.number_right(at)
        }
    }
}

impl Fork {
    /// The number among all rows of one with this number on the right.
    #[inline(always)]
    fn number_right(&self, at: u32) -> u32
        ensures { result ≡ min (length self.now.left.rows + 1 + at) most }
    {
        self.left.count().saturating_add(at).saturating_add(1)
    }
}
