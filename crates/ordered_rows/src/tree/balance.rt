//! Rotations, which keep a tree balanced and its rows as they are.

ghost use Rattle.std.specs.Prelude.{◌≡◌, ◌+◌, ◌≤◌, ◌∷◌, ◌++◌, max};
ghost use Rattle.ordered_rows.specs.Forks.{fork_tree};
ghost use Rattle.ordered_rows.specs.Heights.{DifferByAtMost, GrowsByAtMostOne, IsSettled};

use super::{BalancedTree, Fork, Link};

impl BalancedTree {
    /// A fork as a tree, with a new left side.
    pub(super) fn with_left(mut fork: Box<Fork>, left: BalancedTree) -> BalancedTree
        requires { DifferByAtMost 2 left.height fork.value.right.height }
        ensures rows { result.rows ≡ left.rows ++ fork.value.row ∷ fork.value.right.rows }
        ensures height { IsSettled left.height fork.value.right.height result.height }
    {
        fork.left = left;
        BalancedTree::balanced(fork)
    }

    /// The fork with this tree on the right.
    pub(super) fn with_right(mut fork: Box<Fork>, right: BalancedTree) -> BalancedTree
        requires { DifferByAtMost 2 fork.value.left.height right.height }
        ensures rows { result.rows ≡ fork.value.left.rows ++ fork.value.row ∷ right.rows }
        ensures height { IsSettled fork.value.left.height right.height result.height }
    {
        fork.right = right;
        BalancedTree::balanced(fork)
    }

    /// A fork as a tree.
    fn balanced(fork: Box<Fork>) -> BalancedTree
        requires { DifferByAtMost 2 fork.value.left.height fork.value.right.height }
        ensures rows { result.rows ≡ (fork_tree fork.value).rows }
        ensures height { IsSettled fork.value.left.height fork.value.right.height result.height }
    {
        if fork.left.is_higher(&fork.right, 2) {
            BalancedTree::rotated_right(fork)
        } else if fork.right.is_higher(&fork.left, 2) {
            BalancedTree::rotated_left(fork)
        } else {
            BalancedTree::joined(fork)
        }
    }

    /// Turns a fork whose left side is higher by two.
    fn rotated_right(mut lower: Box<Fork>) -> BalancedTree
        requires { lower.value.left.height ≡ lower.value.right.height + 2 }
        ensures rows { result.rows ≡ (fork_tree lower.value).rows }
        ensures height { GrowsByAtMostOne lower.value.left.height result.height }
    {
        let left = lower.left.take();
        let Link::Fork(_, _, upper) = left.root else {
            unreachable!()
        };
        let mut upper = BalancedTree::leaning_left(upper);
        lower.left = upper.right.take();
        upper.right = BalancedTree::joined(lower);
        BalancedTree::joined(upper)
    }

    /// Turns a fork whose right side is higher by two.
    fn rotated_left(mut lower: Box<Fork>) -> BalancedTree
        requires { lower.value.right.height ≡ lower.value.left.height + 2 }
        ensures rows { result.rows ≡ (fork_tree lower.value).rows }
        ensures height { GrowsByAtMostOne lower.value.right.height result.height }
    {
        let right = lower.right.take();
        let Link::Fork(_, _, upper) = right.root else {
            unreachable!()
        };
        let mut upper = BalancedTree::leaning_right(upper);
        lower.right = upper.left.take();
        upper.left = BalancedTree::joined(lower);
        BalancedTree::joined(upper)
    }

    // The fork, or if its right side is the higher, the fork of that above it.
    fn leaning_left(mut upper: Box<Fork>) -> Box<Fork>
        requires { DifferByAtMost 1 upper.value.left.height upper.value.right.height }
        ensures rows { (fork_tree result.value).rows ≡ (fork_tree upper.value).rows }
        ensures left { result.value.left.height
            ≡ max upper.value.left.height upper.value.right.height }
        ensures right { DifferByAtMost 2 result.value.right.height result.value.left.height
            × (result.value.right.height ≤ result.value.left.height) }
    {
        if !upper.right.is_higher(&upper.left, 1) {
            return upper;
        }
        let right = upper.right.take();
        let Link::Fork(_, _, mut middle) = right.root else {
            unreachable!()
        };
        upper.right = middle.left.take();
        middle.left = BalancedTree::joined(upper);
        middle
    }

    // The fork leans to the right.
    fn leaning_right(mut upper: Box<Fork>) -> Box<Fork>
        requires { DifferByAtMost 1 upper.value.left.height upper.value.right.height }
        ensures rows { (fork_tree result.value).rows ≡ (fork_tree upper.value).rows }
        ensures right { result.value.right.height
            ≡ max upper.value.left.height upper.value.right.height }
        ensures left { DifferByAtMost 2 result.value.left.height result.value.right.height
            × (result.value.left.height ≤ result.value.right.height) }
    {
        if !upper.left.is_higher(&upper.right, 1) {
            return upper;
        }
        let left = upper.left.take();
        let Link::Fork(_, _, mut middle) = left.root else {
            unreachable!()
        };
        upper.left = middle.right.take();
        middle.right = BalancedTree::joined(upper);
        middle
    }
}
