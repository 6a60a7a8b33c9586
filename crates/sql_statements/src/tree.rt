//! Conditions and queries as trees. A chain of operators of one strength is one node, so how deep
//! a tree is, is bounded by the parentheses of its text.

/// A condition over tests.
#[derive(Drop)]
pub enum Tree<T> {
    /// A chain of OR: its first part, and the rest in their order.
    Or(Box<Tree<T>>, Vec<Tree<T>>),
    /// A chain of AND: its first part, and the rest in their order.
    And(Box<Tree<T>>, Vec<Tree<T>>),
    Not(Box<Tree<T>>),
    Test(T),
}

/// An operator on the rows of two queries. Each gives a row once.
#[derive(Clone, Copy)]
pub enum SetOperator {
    /// The rows of either side.
    Union,
    /// The rows of the left side that the right side lacks.
    Except,
    /// The rows of both sides.
    Intersect,
}

/// A query over selects.
#[derive(Drop)]
pub enum QueryTree<S> {
    Select(S),
    /// A query, and the set operators that apply after it, from left to right.
    Combined(Box<QueryTree<S>>, Vec<(SetOperator, QueryTree<S>)>),
}
