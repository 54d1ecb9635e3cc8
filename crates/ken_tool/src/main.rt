//! The program `ken`: rollback recovery over a simulated group of nodes. `ken run` reads a script on standard input and
//! writes the report of its run. `ken torment SEED` does so with faults of a seed. `ken check LENGTH` reads a script of so many bytes and a
//! report behind it, and says whether each line of the report is right for the script. `ken soak` makes a script of a seed and three numbers,
//! runs it, and sums it up. `ken save PREFIX` does what `ken run` does, and copies the disks of each node to files. `ken dump PREFIX` with a
//! node, and numbers of nodes and pages, says what those of that node recover to.
#![tactic(auto)]

use ken_drive::MemWorld;
use ken_filedisk::HostFiles;
use ken_io::{StdSink, StdSource};
use ken_top::{Status, ken};
use std::env;
use std::io::ErrorKind;
use std::process::ExitCode;

fn main(rt: HostRuntime) -> ExitCode {
    let status = match command_line(&rt) {
        Ok(words) => {
            let mut source = StdSource::new(rt.stdin());
            let mut sink = StdSink::new(rt.stdout());
            let mut world = MemWorld::over(rt.alloc(), HostFiles::new(&rt));
            ken(&rt, rt.alloc(), &words, &mut source, &mut sink, &mut world)
        }
        Err(status) => status,
    };
    if status.exit_code() != 0 {
        let _ = eprintln!(rt; "{status}");
    }
    ExitCode::from(status.exit_code())
}

/// The words of the command line. Words that aren't text are no plain words.
fn command_line(rt: &HostRuntime) -> Result<Vec<String>, Status> {
    let args = env::args(rt).map_err(|error| match error.kind() {
        ErrorKind::OutOfMemory => Status::Memory,
        _ => Status::Usage,
    })?;
    args.collect(rt.alloc()).map_err(|_| Status::Memory)
}
