//! The program but for its `main`: the script that the command line names, its run or check, the
//! report, and the exit status. To add a mode, touch `ModeResult` in `mode_results.rt`, `tool.rt`
//! and `specs/Program`, besides what `lib.rt` of command_line names.
#![tactic(auto)]

mod mode_results;
mod program;
mod statuses;
mod tool;

pub use program::run_program;
pub use tool::run_tool;
