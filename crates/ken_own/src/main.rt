//! Services of one's own under every fault, over the drive of `ken run`: `ken_own ledger` and `ken_own leases`, each with the words of `ken` but
//! `soak`. It reads a script on standard input, of the keys of `ken run` but `kind`, and writes the report of its run.
#![tactic(auto)]

use ken_drive::MemWorld;
use ken_filedisk::HostFiles;
use ken_io::{StdSink, StdSource};
use ken_leases::Leases;
use ken_ledger::Ledger;
use ken_top::{Status, serve};
use std::env;
use std::io::ErrorKind;
use std::process::ExitCode;

/// What is served.
enum Service {
    Ledger,
    Leases,
}

fn main(rt: HostRuntime) -> ExitCode {
    let mut source = StdSource::new(rt.stdin());
    let mut sink = StdSink::new(rt.stdout());
    let mut world = MemWorld::over(rt.alloc(), HostFiles::new(&rt));
    let (from, to, over) = (&mut source, &mut sink, &mut world);
    let status = match command_line(&rt) {
        Ok((Service::Ledger, words)) => serve(&rt, rt.alloc(), Ledger, &words, from, to, over),
        Ok((Service::Leases, words)) => serve(&rt, rt.alloc(), Leases, &words, from, to, over),
        Err(status) => status,
    };
    if status.exit_code() != 0 {
        let _ = eprintln!(rt; "{status}");
    }
    ExitCode::from(status.exit_code())
}

/// The service that the first word behind the program's name names, and the words without it. Words that aren't text are no plain words.
fn command_line(rt: &HostRuntime) -> Result<(Service, Vec<String>), Status> {
    let args = env::args(rt).map_err(|error| match error.kind() {
        ErrorKind::OutOfMemory => Status::Memory,
        _ => Status::Usage,
    })?;
    let mut words: Vec<String> = args.collect(rt.alloc()).map_err(|_| Status::Memory)?;
    if words.len() < 2 {
        return Err(Status::Usage);
    }
    match words.remove(1).as_str() {
        "ledger" => Ok((Service::Ledger, words)),
        "leases" => Ok((Service::Leases, words)),
        _ => Err(Status::Usage),
    }
}
