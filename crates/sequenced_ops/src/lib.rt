//! The operators of sequenced queries over lists of period rows: on each day each gives what the
//! ordinary operator gives of that day's snapshots. Each sorts and sweeps; none steps from day to
//! day. The rows of an argument may come in any order, with overlaps and repeats, and those of a
//! result do: `coalesce` makes them an answer.
//!
//! `run_query` gives the rows of a whole query: it joins the references of a select from left to
//! right, each by the equalities between it and those before it, and applies a condition as soon as
//! a row has the values for it. What the last join finds is selected a batch at a time, so
//! memory follows the answer and not the pairs. To add a set operator: its case in `run_part` of
//! `query_run.rt`, in `InCombined` of history_model, and in `proofs/SelectRows`.
#![tactic(auto)]

mod columns;
mod conjuncts;
mod differences;
mod equalities;
mod filters;
mod intersections;
mod joins;
mod key_joins;
mod keyed;
mod outputs;
mod projection;
mod pruning;
mod query_run;
mod refutation;
mod relative_positions;
mod selection;
mod unions;

pub use conjuncts::is_ruled_out;
pub use differences::difference;
pub use intersections::intersection;
pub use key_joins::join;
pub use query_run::run_query;
pub use selection::{select, select_into};
pub use unions::union;
