//! The words of both programs' command lines, and what else the two share: the scripts that they
//! name, readers and writers that note a failure, which audits fail, and the lines on standard
//! error. What to touch in order to add
//!
//! - an option or a subcommand of `bitemporal`: `command.rt` and `specs/CommandLine`, its text in
//!   `help.rt`, a subcommand's `Mode` in `tool.rt` and `specs/Program` of command_tool, and section
//!   10 of docs/PROFILE.md;
//! - an option of `bitemporal_file`: `file_command.rt` and `specs/FileCommand`, its text in
//!   `file_help.rt`, and section 12 of docs/PROFILE.md;
//! - a refusal: its line in the list of `help.rt`, besides what `lib.rt` of period_core names;
//! - a fault that ends a program: `RunFault` in `fault.rt`, its line in `specs/Lines`, and when it
//!   may end a run in `specs/Program` of command_tool.
#![tactic(auto)]

mod audits;
mod backup;
mod command;
mod exit;
mod fault;
mod file_command;
mod file_help;
mod help;
mod script_reader;
mod scripts;
mod tracked;
mod words;

pub use audits::has_failed;
pub use backup::{Backup, backup_of};
pub use command::{CommandFault, Mode, command_line};
pub use exit::{end_in, show, write_text};
pub use fault::{ProgramName, RunFault};
pub use file_command::{Request, parse_request};
pub use script_reader::read_script;
pub use scripts::{ScriptFiles, Scripts};
pub use tracked::Tracked;
pub use words::words_of;
