// The top call.
ghost use Rattle.std.specs.Prelude.{◌⊎◌, map, string_bytes};
ghost use Rattle.ken_drive.specs.Clauses.{files_of, views_of};
ghost use Rattle.ken_drive.specs.Worlds.{HasKeptNothing};
ghost use Rattle.ken_words.specs.Commands.{command_of, prefix_of};
ghost use Rattle.ken_top.specs.Commands.{RunsNothing};
ghost use Rattle.ken_top.specs.Does.{Does, all_rounds, no_rounds};
ghost use Rattle.ken_top.specs.Programs.{kinds};

use crate::doing::{done, done_alone};
use crate::kinds::Kinds;
use crate::status::Status;
use ken_drive::World;
use ken_io::{Sink, Source};
use ken_words::{command_in, commands_fit, prefix_in};
use std::alloc::Global;
use std::sync::Wait;
use std::thread::Threads;

/// Does what the program does. `words` begins with the program's name. With `run` it reads a script, runs it over the world's devices, and
/// writes its report. With `torment` and a seed it does so with faults that are drawn from the seed beside the script's own. With `check` and
/// a length it reads a script of so many bytes and a report behind it, and writes `yes` where
/// each line of the report is right for the script. With `soak`, a seed, and numbers of nodes, inputs and rounds it makes a script of these,
/// runs it, and writes the summary of what its nodes came to. With `save` and a prefix it does what `run` does, and copies the disks of each
/// node to files of the world before the report is written: to the prefix, the node, a dot and the disk's number. With `dump`, a prefix, a
/// node, and numbers of nodes and pages it writes what such files of that node recover to.
///
/// A run makes the rounds that its script asks for: the workers of its nodes are threads then, as far as `rt` starts them,
/// and one may wait where a wire is in another's hands. So nothing here says that a call returns; `ken_alone` makes no
/// rounds, and returns. `Memory` comes where memory is wanted, and else as each status says. The world keeps the devices of
/// a run that has ended, or of which a node is down, before anything is written. It must have kept nothing before, unless the words
/// ask for nothing that is run.
pub fn ken<R: Threads + Wait + Sync, S: Source, K: Sink, W: World>(
    rt: &R,
    alloc: Global,
    words: &[String],
    source: &mut S,
    sink: &mut K,
    world: &mut W,
) -> Status
    requires { RunsNothing (command_of (map string_bytes words.now)) ⊎ HasKeptNothing (W.kept world.old) }
    ensures { Does S.Source K.Sink (views_of W.Dev.Disk W.Luck.Oracle W.Out.Outlet W.scripted)
        (files_of W.File.Disk W.tells) W.kept W.filing kinds all_rounds (command_of (map string_bytes words.now))
        (prefix_of (map string_bytes words.now)) source.old source.new sink.old sink.new world.old world.new result }
{
    commands_fit();
    match command_in(alloc, words) {
        Ok(command) => done(
            rt,
            alloc,
            Kinds,
            command,
            prefix_in(words),
            source,
            sink,
            world,
        ),
        Err(_) => Status::Memory,
    }
}

/// Does what `ken` does, but makes no rounds, whatever a script or a soak asks for. It starts no thread and waits for
/// nobody, so it is proved to return.
pub fn ken_alone<S: Source, K: Sink, W: World>(
    alloc: Global,
    words: &[String],
    source: &mut S,
    sink: &mut K,
    world: &mut W,
) -> Status
    requires { RunsNothing (command_of (map string_bytes words.now)) ⊎ HasKeptNothing (W.kept world.old) }
    ensures { Does S.Source K.Sink (views_of W.Dev.Disk W.Luck.Oracle W.Out.Outlet W.scripted)
        (files_of W.File.Disk W.tells) W.kept W.filing kinds no_rounds (command_of (map string_bytes words.now))
        (prefix_of (map string_bytes words.now)) source.old source.new sink.old sink.new world.old world.new result }
{
    commands_fit();
    match command_in(alloc, words) {
        Ok(command) => { done_alone(alloc, Kinds, command, prefix_in(words), source, sink, world) }
        Err(_) => Status::Memory,
    }
}
