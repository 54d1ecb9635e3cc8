//! Rows of disks in memory that fail where they are told to, of the log and the image on them, and of a log's items in bytes.
#![tactic(auto)]

mod bytes;
mod disks;
mod images;
mod items;
mod logs;
mod shown;

use disks::Disks;
use ken_rows::transcribe;
use std::process::ExitCode;

fn main(rt: HostRuntime) -> ExitCode {
    let mut disks = Disks::new(rt.alloc());
    transcribe(&rt, &mut disks)
}
