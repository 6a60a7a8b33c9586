//! Rows by their number, the first is 0: a look at one, and edits in place.

ghost use Rattle.std.specs.Prelude.{◌≡◌, ◌∷◌, ◌++◌, ◌+◌, ◌<◌, ◌≤◌, []};
ghost use Rattle.std.specs.Prelude.{MatchOption, drop, length, max, slice_set};
ghost use Rattle.ordered_rows.specs.Edits.{inserted, removed};
ghost use Rattle.ordered_rows.specs.Forks.{most};
ghost use Rattle.ordered_rows.specs.Heights.{DifferByAtMost, GrowsByAtMostOne};

use super::{BalancedTree, Fork, Link};
use crate::stored_row::StoredRow;
use std::cmp::Ordering;
use std::mem;

impl BalancedTree {
    /// The row with this number, if there is one.
    pub(crate) fn nth(&self, at: u32) -> Option<&StoredRow>
        requires { at < most }
        ensures { MatchOption result (length self.now.rows ≤ at)
            (λ row. drop at self.now.rows ≡ row.now ∷ drop (at + 1) self.now.rows) }
    {
        let Link::Fork(_, _, fork) = &self.root else {
            return None;
        };
        let fork = fork.as_ref();
        let left = fork.left.count();
        match at.cmp(&left) {
            Ordering::Less => fork.left.nth(at),
            Ordering::Equal => Some(&fork.row),
            Ordering::Greater => fork.right.nth(at - left - 1),
        }
    }

    /// The row of a fork before the row with this number. The fork becomes one of the tree's.
    pub(crate) fn inserted(self, at: u32, mut new: Box<Fork>) -> BalancedTree
        requires { at < most }
        ensures rows { result.rows ≡ inserted at new.value.row self.rows }
        ensures height { GrowsByAtMostOne self.height result.height }
    {
        let Link::Fork(_, _, mut fork) = self.root else {
            new.left = BalancedTree::empty();
            new.right = BalancedTree::empty();
            return BalancedTree::joined(new);
        };
        let left = fork.left.count();
        if at <= left {
            let side = fork.left.take().inserted(at, new);
            BalancedTree::with_left(fork, side)
        } else {
            let side = fork.right.take().inserted(at - left - 1, new);
            BalancedTree::with_right(fork, side)
        }
    }

    /// The tree without the row with this number, and the fork of that, if there is one.
    pub(crate) fn removed(self, at: u32) -> (BalancedTree, Option<Box<Fork>>)
        requires { at < most }
        ensures rest { result.0.rows ≡ removed at self.rows }
        ensures height { GrowsByAtMostOne result.0.height self.height }
        ensures taken { MatchOption result.1 (length self.rows ≤ at)
            (λ fork. drop at self.rows ≡ fork.value.row ∷ drop (at + 1) self.rows) }
    {
        let Link::Fork(_, _, mut fork) = self.root else {
            return (BalancedTree::empty(), None);
        };
        let left = fork.left.count();
        match at.cmp(&left) {
            Ordering::Less => {
                let (rest, taken) = fork.left.take().removed(at);
                (BalancedTree::with_left(fork, rest), taken)
            }
            Ordering::Equal => {
                let left = fork.left.take();
                let right = fork.right.take();
                (BalancedTree::merged(left, right), Some(fork))
            }
            Ordering::Greater => {
                let (rest, taken) = fork.right.take().removed(at - left - 1);
                (BalancedTree::with_right(fork, rest), taken)
            }
        }
    }

    /// One tree after another.
    fn merged(left: BalancedTree, right: BalancedTree) -> BalancedTree
        requires { DifferByAtMost 1 left.height right.height }
        ensures rows { result.rows ≡ left.rows ++ right.rows }
        ensures height { GrowsByAtMostOne (max left.height right.height) result.height }
    {
        match right.split_first() {
            None => left,
            Some((mut first, others)) => {
                first.left = left;
                BalancedTree::with_right(first, others)
            }
        }
    }

    /// The fork of the first row, and the tree of the rest.
    fn split_first(self) -> Option<(Box<Fork>, BalancedTree)>
        ensures rows { MatchOption result (self.rows ≡ [])
            (λ parts. self.rows ≡ parts.0.value.row ∷ parts.1.rows) }
        ensures height { MatchOption result (self.height ≡ 0)
            (λ parts. GrowsByAtMostOne parts.1.height self.height) }
    {
        let Link::Fork(_, _, mut fork) = self.root else {
            return None;
        };
        match fork.left.take().split_first() {
            None => {
                let right = fork.right.take();
                Some((fork, right))
            }
            Some((first, others)) => Some((first, BalancedTree::with_left(fork, others))),
        }
    }

    /// The tree with a new row over the one with this number, and the old one, if there is one.
    pub(crate) fn replaced(self, at: u32, new: StoredRow) -> (BalancedTree, Option<StoredRow>)
        requires { at < most }
        ensures after { result.0.rows ≡ slice_set self.rows at new }
        ensures height { result.0.height ≡ self.height }
        ensures taken { MatchOption result.1 (length self.rows ≤ at)
            (λ row. drop at self.rows ≡ row ∷ drop (at + 1) self.rows) }
    {
        let Link::Fork(_, _, mut fork) = self.root else {
            return (BalancedTree::empty(), None);
        };
        let left = fork.left.count();
        match at.cmp(&left) {
            Ordering::Less => {
                let (side, taken) = fork.left.take().replaced(at, new);
                (BalancedTree::with_left(fork, side), taken)
            }
            Ordering::Equal => {
                let old = mem::replace(&mut fork.row, new);
                (BalancedTree::joined(fork), Some(old))
            }
            Ordering::Greater => {
                let (side, taken) = fork.right.take().replaced(at - left - 1, new);
                (BalancedTree::with_right(fork, side), taken)
            }
        }
    }
}
