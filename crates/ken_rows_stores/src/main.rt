//! Rows of the store of a node, over disks in memory.
#![tactic(auto)]

mod calls;
mod disks;
mod rows;
mod stores;

use ken_rows::transcribe;
use std::process::ExitCode;
use stores::Stores;

fn main(rt: HostRuntime) -> ExitCode {
    transcribe(&rt, &mut Stores::new(rt.alloc()))
}
