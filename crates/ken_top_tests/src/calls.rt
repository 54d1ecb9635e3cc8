// Calls of the program over objects in memory.
ghost use Rattle.ken_drive.specs.Worlds.{HasKeptNothing};

use ken_drive::World;
use ken_io::{MemSink, MemSource};
use ken_model::{Items, Octets};
use ken_top::{Status, ken};
use std::alloc::{AllocError, Global};
use std::str::{Utf8Error, from_utf8};
use std::sync::Wait;
use std::thread::Threads;

// The room of a source or a sink, and the most that one gives or takes in a call.
const WHOLE: usize = 1 << 16;

// How a call ends, and what is out then.
#[derive(Drop)]
pub(crate) struct Called {
    pub(crate) status: Status,
    sink: MemSink,
}

impl Called {
    // The status, and what is out.
    pub(crate) fn ending(&self) -> Result<(Status, &str), Utf8Error> {
        Ok((self.status, from_utf8(self.sink.bytes())?))
    }
}

// Runs a script over a world that has kept nothing, with these words behind the program's name.
pub(crate) fn run_over<R: Threads + Wait + Sync, W: World>(
    rt: &R,
    alloc: Global,
    asked: &[&str],
    script: &str,
    world: &mut W,
) -> Result<Called, AllocError>
    requires { HasKeptNothing (W.kept world.old) }
{
    let mut words = Vec::new(alloc);
    words.push(String::from_str(alloc, "ken")?)?;
    for word in asked {
        words.push(String::from_str(alloc, word)?)?;
    }
    let script = Octets::new(script.as_bytes().to_vec(alloc)?);
    let mut source = MemSource::new(script, Items::new(Vec::new(alloc)), WHOLE);
    let mut sink = MemSink::new(alloc, WHOLE, Items::new(Vec::new(alloc)), WHOLE)?;
    let status = ken(rt, alloc, &words, &mut source, &mut sink, world);
    Ok(Called { status, sink })
}
