//! What two threads share, or the two workers of a node, beside what it stands on, so that someone can take the time. The first
//! word picks one: `ring` and `bare_ring` move items through a ring, `wire` and `bare_queue` packets from several senders.
#![tactic(auto)]

mod bare;
mod fault;
mod mail;
mod queues;
mod rings;
mod threads;
mod wires;

use bare::through_bare_ring;
use fault::Fault;
use ken_num::num;
use queues::through_bare_queue;
use rings::through_ring;
use std::alloc::Global;
use std::env;
use std::io::ErrorKind;
use std::process::ExitCode;
use std::sync::Wait;
use std::thread::Threads;
use wires::through_wire;

// The most items or packets.
const MAX_COUNT: u64 = 100_000_000;

fn main(rt: HostRuntime) -> ExitCode {
    let done = match command_line(&rt) {
        Ok(words) => run(&rt, rt.alloc(), &words),
        Err(fault) => Err(fault),
    };
    match done {
        Ok(moved) => match println!(rt; "{moved} came out") {
            Ok(()) => ExitCode::SUCCESS,
            Err(_) => ExitCode::FAILURE,
        },
        Err(fault) => {
            let _ = eprintln!(rt; "ken_bench: {fault}");
            ExitCode::FAILURE
        }
    }
}

// The words of the command line. Words that aren't text ask for nothing.
fn command_line(rt: &HostRuntime) -> Result<Vec<String>, Fault> {
    let args = env::args(rt).map_err(|error| match error.kind() {
        ErrorKind::OutOfMemory => Fault::Memory,
        _ => Fault::Usage,
    })?;
    args.collect(rt.alloc()).map_err(|_| Fault::Memory)
}

// Does what the words say, and tells how many came out.
fn run<R: Threads + Wait + Sync>(rt: &R, alloc: Global, words: &[String]) -> Result<u64, Fault> {
    match words {
        [_, work, items] => in_one_thread(alloc, work, count(items)?),
        [_, work, senders, packets] => {
            in_threads(rt, alloc, work, count(senders)?, count(packets)?)
        }
        _ => Err(Fault::Usage),
    }
}

fn count(word: &str) -> Result<u64, Fault> {
    match num(word.as_bytes()) {
        Some(count) if count <= MAX_COUNT => Ok(count),
        _ => Err(Fault::Usage),
    }
}

fn in_one_thread(alloc: Global, work: &str, items: u64) -> Result<u64, Fault> {
    match work {
        "ring" => Ok(through_ring(alloc, items)?),
        "bare_ring" => Ok(through_bare_ring(alloc, items)?),
        _ => Err(Fault::Usage),
    }
}

// Each of 1 to 8 senders puts its share of the packets.
fn in_threads<R: Threads + Wait + Sync>(
    rt: &R,
    alloc: Global,
    work: &str,
    senders: u64,
    packets: u64,
) -> Result<u64, Fault> {
    if senders == 0 || senders > 8 {
        return Err(Fault::Usage);
    }
    let each = packets / senders;
    match work {
        "wire" => Ok(through_wire(rt, alloc, senders as u8, each)?),
        "bare_queue" => Ok(through_bare_queue(rt, alloc, senders as u8, each)?),
        _ => Err(Fault::Usage),
    }
}
