//! The independent checker of a sequenced answer. It asks of each list of values, on each day on
//! which a row of the answer or of a select begins or ends to hold it, whether the set of the
//! ordinary query on that day has it, and whether the answer has; then it checks the witnesses. It
//! depends on neither coalescing nor the operators on period rows, and they do not on it.
#![tactic(auto)]

mod answer_audit;
mod combined_rows;
mod days;
mod differences;
mod evaluation;
mod exclusion;
mod gaps;
mod joins;
mod keys;
mod laws;
mod query_rows;
mod select_rows;
mod selects;
mod set_operations;
mod sets;
mod shared_columns;
mod snapshots;
mod staggered;
mod verdict;
mod witness_check;

pub use answer_audit::audit;
pub use days::change_days;
pub use evaluation::eval_on;
pub use laws::constant_between_change_days;
pub use snapshots::rows_on;
pub use verdict::Verdict;
pub use witness_check::check_witnesses;
