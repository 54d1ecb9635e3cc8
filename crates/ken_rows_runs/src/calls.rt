// Calls of the program, and what they leave.
ghost use Rattle.std.specs.Prelude.{◌⊎◌, None, map, slice_index_or, string_bytes};
ghost use Rattle.ken_drive.specs.Worlds.{HasKeptNothing};
ghost use Rattle.ken_words.specs.Commands.{command_of};
ghost use Rattle.ken_top.specs.Commands.{RunsNothing, for_service};

use ken_drive::MemWorld;
use ken_files::MemFiles;
use ken_io::{MemSink, MemSource};
use ken_leases::Leases;
use ken_ledger::Ledger;
use ken_model::MAX_NODES;
use ken_rows::{Answer, RowFault, Words};
use ken_top::{Status, ken, serve};
use ken_words::{Command, command_in};
use std::alloc::{AllocError, Global};
use std::str::from_utf8;
use std::sync::Wait;
use std::thread::Threads;

/// Which program is called.
#[derive(Clone, Copy)]
pub(crate) enum Program {
    Ken,
    Ledger,
    Leases,
}

impl Program {
    /// The program of a name.
    pub(crate) fn of(name: &[u8]) -> Option<Program> {
        match name {
            b"ken" => Some(Program::Ken),
            b"ledger" => Some(Program::Ledger),
            b"leases" => Some(Program::Leases),
            _ => None,
        }
    }
}

/// A call that is to be made, with these words, over a world in memory: over one with these files, or for a dump that of the last
/// call, where there is one.
#[derive(Drop)]
pub(crate) struct Asked {
    pub(crate) program: Program,
    pub(crate) words: Vec<String>,
    pub(crate) source: MemSource,
    pub(crate) sink: MemSink,
    pub(crate) files: MemFiles,
    pub(crate) last: Option<MemWorld>,
}

/// How a call ended, what is left to read, what is written, and the devices.
#[derive(Drop)]
pub(crate) struct Ran {
    status: Status,
    pub(crate) source: Option<MemSource>,
    pub(crate) sink: MemSink,
    world: MemWorld,
}

/// Makes a call.
pub(crate) fn make<R: Threads + Wait + Sync>(rt: &R, alloc: Global, asked: Asked) -> Ran {
    let Asked {
        program,
        words,
        mut source,
        mut sink,
        files,
        last,
    } = asked;
    let mut world = world_of(alloc, &words, files, last);
    let (source_of, sink_of, over) = (&mut source, &mut sink, &mut world);
    let status = match program {
        Program::Ken => ken(rt, alloc, &words, source_of, sink_of, over),
        Program::Ledger => serve(rt, alloc, Ledger, &words, source_of, sink_of, over),
        Program::Leases => serve(rt, alloc, Leases, &words, source_of, sink_of, over),
    };
    Ran {
        status,
        source: Some(source),
        sink,
        world,
    }
}

/// The world of a call with these words: for a dump that of the last call, where there is one, and else a new one with these files.
fn world_of(alloc: Global, words: &[String], files: MemFiles, last: Option<MemWorld>) -> MemWorld
    ensures kinds { RunsNothing (command_of (map string_bytes words.now)) ⊎ HasKeptNothing (λ v. slice_index_or result.kept v None) }
    ensures service { RunsNothing (for_service (command_of (map string_bytes words.now)))
        ⊎ HasKeptNothing (λ v. slice_index_or result.kept v None) }
{
    if let Ok(Some(Command::Dump { .. })) = command_in(alloc, words)
        && let Some(world) = last
    {
        return world;
    }
    MemWorld::over(alloc, files)
}

impl Ran {
    /// The world, with what it has kept.
    pub(crate) fn into_world(self) -> MemWorld {
        self.world
    }

    /// Answers each line that is written, and how the call ended: the exit status of the process and its text.
    pub(crate) fn tell(&self, alloc: Global, answer: &mut Answer) -> Result<(), AllocError> {
        answer.lines(self.sink.bytes())?;
        answer.named("exit", u64::from(self.status.exit_code()))?;
        let text = format!(in alloc; "{}", self.status)?;
        if !text.is_empty() {
            answer.word(&text)?;
        }
        Ok(())
    }

    /// Answers of which nodes devices are kept, how many calls of their outlets were made, and how many outputs these took.
    pub(crate) fn tell_kept(&self, answer: &mut Answer) -> Result<(), AllocError> {
        for node in 0..MAX_NODES {
            if let Some(kept) = self.world.kept(node) {
                answer.named("node", u64::from(node))?;
                answer.named("calls", kept.out.calls())?;
                answer.named("took", kept.out.took().len() as u64)?;
                answer.end()?;
            }
        }
        Ok(())
    }
}

/// Appends the words that are left of a row, with one space between two.
pub(crate) fn push_words(
    alloc: Global,
    list: &mut Vec<String>,
    words: &mut Words<'_>,
) -> Result<(), RowFault> {
    if words.has_next() {
        for word in words.rest()?.split(|byte| *byte == b' ') {
            let word = from_utf8(word).map_err(|_| RowFault::Usage)?;
            list.push(String::from_str(alloc, word)?)?;
        }
    }
    Ok(())
}
