//! `bitemporal run [FILE]` and `bitemporal check [FILE]`, and, under its other name,
//! `bitemporal_file STORE [FILE ..]`: what the system gives, handed to `run_program` of
//! command_tool, or to `run_file_program` of bitemporal_file.
#![tactic(auto)]

use bitemporal_file::{AnyFiles, Reporter, StoreFiles, is_called, run_backup, run_file_program};
use command_line::{ProgramName, RunFault, ScriptFiles, Tracked, backup_of, end_in, words_of};
use command_tool::run_program;
use std::env;
use std::io::BufReader;
use std::process::ExitCode;

// The second program: a copy of a store, or what else its words ask for. Its input is read in
// blocks.
fn run_second(rt: &HostRuntime, words: &[String]) -> u8 {
    let alloc = rt.alloc();
    let mut err = Tracked::new(rt.stderr());
    let mut stores = StoreFiles::new(rt, AnyFiles);
    let mut report = Reporter::new(alloc, rt.stdout(), Tracked::new(rt.stderr()));
    if let Some(asked) = backup_of(words) {
        return run_backup(rt, alloc, &mut stores, &asked, &report, &mut err);
    }
    let Ok(blocks) = BufReader::new(alloc, rt.stdin()) else {
        return end_in(
            alloc,
            ProgramName::BitemporalFile,
            &mut err,
            RunFault::Memory,
        );
    };
    let mut input = Tracked::new(blocks);
    let mut scripts = ScriptFiles::new(rt);
    run_file_program(
        alloc,
        words,
        &mut stores,
        rt,
        &mut scripts,
        &mut input,
        &mut report,
    )
}

fn main(rt: HostRuntime) -> ExitCode {
    let alloc = rt.alloc();
    let status = match words_of(alloc, env::args(&rt)) {
        Ok(words) if is_called(words.as_slice()) => run_second(&rt, words.as_slice()),
        words => run_program(
            alloc,
            words,
            &mut ScriptFiles::new(&rt),
            &mut Tracked::new(rt.stdin()),
            &mut rt.stdout(),
            &mut Tracked::new(rt.stderr()),
        ),
    };
    ExitCode::from(status)
}
