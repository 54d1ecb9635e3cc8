//! Rows of whole runs: scripts with what their source and their sink do, checks of reports, soaks, runs that are saved to files and dumps of
//! these, the ledger's service, and what the words of a command line and a script say.
#![tactic(auto)]

mod calls;
mod files;
mod runs;
mod scripts;
mod streams;

use calls::{Asked, make};
use ken_rows::transcribe;
use runs::Runs;
use std::process::ExitCode;

fn main(rt: HostRuntime) -> ExitCode {
    let alloc = rt.alloc();
    // The handle of calls that may wait goes with the closure.
    let Ok(make) = Box::new(alloc, move |asked: Asked| make(&rt, alloc, asked)) else {
        return ExitCode::FAILURE;
    };
    transcribe(&rt, &mut Runs::new(alloc, make))
}
