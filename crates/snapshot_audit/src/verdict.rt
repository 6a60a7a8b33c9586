//! The verdict of an audit.

use period_core::Day;

/// The verdict of an audit on an answer.
#[derive(Clone, Copy, Debug, PartialEq, Eq)]
pub enum Verdict {
    /// On every day the answer's snapshot is the query's set, the answer is the shortest of its
    /// snapshots, and its witnesses are its rows'. It carries the number of change days.
    Agrees(usize),
    /// The least day on which the answer's snapshot is not the query's set.
    Differs(Day),
    /// On every day the answer's snapshot is the query's set, but `check_witnesses` gives this
    /// number.
    BadWitness(usize),
}
