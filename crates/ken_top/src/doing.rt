// What a command asks for is done.
ghost use Rattle.std.specs.Prelude.{◌⊎◌, IfSome};
ghost use Rattle.ken_drive.specs.Clauses.{files_of, views_of};
ghost use Rattle.ken_drive.specs.Worlds.{HasKeptNothing};
ghost use Rattle.ken_words.specs.Fits.{Fits};
ghost use Rattle.ken_top.specs.Commands.{RunsNothing};
ghost use Rattle.ken_top.specs.Does.{Does, all_rounds, no_rounds};

use crate::cast::Cast;
use crate::checking::checked;
use crate::dumping::dumped;
use crate::running::{ran, ran_alone};
use crate::saving::{saved, saved_alone};
use crate::soaking::{soaked, soaked_alone};
use crate::status::Status;
use ken_drive::World;
use ken_io::{Sink, Source};
use ken_soak::torment_spares;
use ken_words::Command;
use std::alloc::Global;
use std::sync::Wait;
use std::thread::Threads;

/// Does what a command asks for, over files of this prefix, with the rounds that a script or a soak asks for.
pub(crate) fn done<R: Threads + Wait + Sync, C: Cast + Drop, S: Source, K: Sink, W: World>(
    rt: &R,
    alloc: Global,
    cast: C,
    command: Option<Command>,
    prefix: &str,
    source: &mut S,
    sink: &mut K,
    world: &mut W,
) -> Status
    requires fits { IfSome command Fits }
    requires none { RunsNothing command ⊎ HasKeptNothing (W.kept world.old) }
    ensures { Does S.Source K.Sink (views_of W.Dev.Disk W.Luck.Oracle W.Out.Outlet W.scripted)
        (files_of W.File.Disk W.tells) W.kept W.filing (C.program cast) all_rounds command prefix.now
        source.old source.new sink.old sink.new world.old world.new result }
{
    torment_spares();
    match command {
        Some(Command::Run) => ran(rt, alloc, cast, None, source, sink, world),
        Some(Command::Torment { seed }) => ran(rt, alloc, cast, Some(seed), source, sink, world),
        Some(Command::Save) => saved(rt, alloc, cast, prefix, source, sink, world),
        Some(
            Command::Soak {
                seed,
                nodes,
                inputs,
                rounds,
            },
        ) => soaked(rt, alloc, seed, nodes, inputs, rounds, sink, world),
        Some(Command::Check { .. } | Command::Dump { .. }) | None => {
            done_alone(alloc, cast, command, prefix, source, sink, world)
        }
    }
}

/// Does what a command asks for, over files of this prefix, and makes no rounds.
pub(crate) fn done_alone<C: Cast + Drop, S: Source, K: Sink, W: World>(
    alloc: Global,
    cast: C,
    command: Option<Command>,
    prefix: &str,
    source: &mut S,
    sink: &mut K,
    world: &mut W,
) -> Status
    requires fits { IfSome command Fits }
    requires none { RunsNothing command ⊎ HasKeptNothing (W.kept world.old) }
    ensures { Does S.Source K.Sink (views_of W.Dev.Disk W.Luck.Oracle W.Out.Outlet W.scripted)
        (files_of W.File.Disk W.tells) W.kept W.filing (C.program cast) no_rounds command prefix.now
        source.old source.new sink.old sink.new world.old world.new result }
{
    torment_spares();
    match command {
        Some(Command::Run) => ran_alone(alloc, cast, None, source, sink, world),
        Some(Command::Check { length }) => checked(cast, alloc, length, source, sink),
        Some(Command::Torment { seed }) => ran_alone(alloc, cast, Some(seed), source, sink, world),
        Some(Command::Save) => saved_alone(alloc, cast, prefix, source, sink, world),
        Some(Command::Dump { node, nodes, pages }) => {
            dumped(alloc, prefix, node, nodes, pages, sink, world)
        }
        Some(
            Command::Soak {
                seed,
                nodes,
                inputs,
                ..
            },
        ) => soaked_alone(alloc, seed, nodes, inputs, sink, world),
        None => Status::Usage,
    }
}
