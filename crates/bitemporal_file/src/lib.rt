//! The program `bitemporal_file` but for its `main`: scripts over a store in a file, which stays.
//! Places to touch, in order to add
//!
//! - an option: what `lib.rt` of command_line names, and what it does in `program.rt`, `over.rt`
//!   and `specs/StoreRuns`;
//! - what is reported of a statement: `Reported` in `reporter.rt`;
//! - a report of a store if nothing is run: `Inspection` in `inspections.rt` and
//!   `specs/Inspections`;
//! - a command of a session: `commands.rt` and `specs/Commands`; what it has of the system:
//!   `system.rt`;
//! - where a part of a session ends: `Place` in `parts.rt` and `specs/Parts`;
//! - a fault that ends the program: `RunFault` of command_line, and `stores.rt` if a file is at
//!   fault.
#![tactic(auto)]

mod any_files;
mod backup;
mod commands;
mod held_files;
mod inspections;
mod listing;
mod new_file;
mod notes;
mod over;
mod parts;
mod places;
mod program;
mod read_only;
mod reporter;
mod runs;
mod session;
mod stores;
mod system;
mod tables;
mod verification;

pub use any_files::AnyFiles;
pub use backup::run_backup;
pub use places::{FileKind, Places};
pub use program::{is_called, run_file_program};
pub use reporter::Reporter;
pub use stores::StoreFiles;
pub use system::System;
pub use verification::alike_are_verified_alike;
