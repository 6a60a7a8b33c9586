//! A balanced tree of rows, which contracts see as the list of its rows and the tree's height.

ghost use Rattle.std.specs.Prelude.{◌≡◌, ◌↔◌, ◌+◌, ◌%◌, ◌<◌, [], IsTrue, length, min};
ghost use Rattle.ordered_rows.specs.Forks.{fork_tree, most};
ghost use Rattle.ordered_rows.specs.Heights.{DifferByAtMost, IsLow};

use crate::stored_row::StoredRow;
use std::marker::Model;
use std::mem;

mod balance;
mod numbered;
mod ranks;

#[cycle(tree)]
#[derive(Drop)]
pub(crate) struct BalancedTree {
    root: Link,
}

/// A link to a fork has the fork's height, modulo 256, and the number of its rows: a look at
/// either reads no fork. Heights that are compared differ by two at most, and modulo 256 they still
/// differ by as much. A number that is too large for 32 bits is stored as the greatest.
#[cycle(tree)]
#[derive(Drop)]
pub(crate) enum Link {
    Leaf,
    Fork(u8, u32, Box<Fork>),
}

/// A row, and the rows on either side of it.
#[cycle(tree)]
#[derive(Drop)]
pub(crate) struct Fork {
    pub left: BalancedTree,
    pub right: BalancedTree,
    pub row: StoredRow,
}

impl Model for BalancedTree {
    ghost use Rattle.std.specs.Prelude.{length};
    ghost use Rattle.ordered_rows.specs.RowTrees.{RowTree, row_tree_code};

    ghost Value = { RowTree };

    ghost coded = { row_tree_code };

    ghost use Rattle.ordered_rows.specs.Forks.{IsSound, tree_of};

    ghost view = { λ t. tree_of t.root };

    ghost invariant = { λ t. IsSound t.root };

    ghost size = { λ t. length t.rows };

    ghost use Rattle.ordered_rows.specs.ForkDepths.{depth_le_length};

    ghost size_decreases = { λ t h. depth_le_length t.root };
}

impl BalancedTree {
    pub(crate) fn empty() -> BalancedTree
        ensures rows { result.rows ≡ [] }
        ensures height { result.height ≡ 0 }
    {
        BalancedTree { root: Link::Leaf }
    }

    /// The tree, which leaves an empty one.
    pub(crate) fn take(&mut self) -> BalancedTree
        ensures taken { result ≡ self.old }
        ensures rows { self.new.rows ≡ [] }
        ensures height { self.new.height ≡ 0 }
    {
        mem::replace(self, BalancedTree::empty())
    }

    /// The height modulo 256. It is low for the number of rows.
    fn height(&self) -> u8
        ensures value { result ≡ self.now.height % 256 }
        ensures low { IsLow self.now.height (length self.now.rows) }
    {
        match &self.root {
            Link::Leaf => 0,
            Link::Fork(height, _, _) => *height,
        }
    }

    /// Whether the tree's height is the other's plus `by`. They differ by two at most.
    fn is_higher(&self, other: &BalancedTree, by: u8) -> bool
        requires near { DifferByAtMost 2 self.now.height other.now.height }
        requires within { by < 3 }
        ensures { IsTrue result ↔ (self.now.height ≡ other.now.height + by) }
    {
        self.height() == other.height().wrapping_add(by)
    }

    /// The number of rows, or the greatest one.
    pub(crate) fn count(&self) -> u32
        ensures { result ≡ min (length self.now.rows) most }
    {
        match &self.root {
            Link::Leaf => 0,
            Link::Fork(_, count, _) => *count,
        }
    }

    /// A fork as a tree.
    fn joined(fork: Box<Fork>) -> BalancedTree
        requires { DifferByAtMost 1 fork.value.left.height fork.value.right.height }
        ensures { result ≡ fork_tree fork.value }
    {
        let (left, right) = (&fork.left, &fork.right);
        let (of_left, of_right) = (left.height(), right.height());
        let higher = if right.is_higher(left, 1) {
            of_right
        } else {
            of_left
        };
        let height = higher.wrapping_add(1);
        let count = left.count().saturating_add(right.count()).saturating_add(1);
        BalancedTree {
            root: Link::Fork(height, count, fork),
        }
    }
}
