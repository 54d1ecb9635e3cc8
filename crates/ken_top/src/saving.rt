// A script is read and run, the disks of its nodes saved to files, and the report of its run written.
ghost use Rattle.ken_drive.specs.Clauses.{files_of, views_of};
ghost use Rattle.ken_drive.specs.Worlds.{HasKeptNothing};
ghost use Rattle.ken_top.specs.Does.{ReportsSaving, SavesSource, all_rounds, no_rounds};

use crate::cast::Cast;
use crate::running::{reported, said};
use crate::status::Status;
use ken_drive::{World, drive_saving, drive_saving_alone};
use ken_io::{Sink, Source};
use ken_model::Lines;
use std::alloc::Global;
use std::sync::Wait;
use std::thread::Threads;

/// Reads a script, runs it, copies the disks of each node to files under the prefix, and writes the report.
pub(crate) fn saved<R: Threads + Wait + Sync, C: Cast + Drop, S: Source, K: Sink, W: World>(
    rt: &R,
    alloc: Global,
    cast: C,
    prefix: &str,
    source: &mut S,
    sink: &mut K,
    world: &mut W,
) -> Status
    requires { HasKeptNothing (W.kept world.old) }
    ensures { ReportsSaving S.Source K.Sink (C.program cast) all_rounds
        (views_of W.Dev.Disk W.Luck.Oracle W.Out.Outlet W.scripted) (files_of W.File.Disk W.tells) prefix.now
        (W.filing world.old) (W.filing world.new) (W.kept world.new) source.old source.new sink.old sink.new result }
{
    let run = save(rt, alloc, cast, prefix, source, world);
    reported(alloc, sink, run)
}

/// Does what `saved` does, with no rounds.
pub(crate) fn saved_alone<C: Cast + Drop, S: Source, K: Sink, W: World>(
    alloc: Global,
    cast: C,
    prefix: &str,
    source: &mut S,
    sink: &mut K,
    world: &mut W,
) -> Status
    requires { HasKeptNothing (W.kept world.old) }
    ensures { ReportsSaving S.Source K.Sink (C.program cast) no_rounds
        (views_of W.Dev.Disk W.Luck.Oracle W.Out.Outlet W.scripted) (files_of W.File.Disk W.tells) prefix.now
        (W.filing world.old) (W.filing world.new) (W.kept world.new) source.old source.new sink.old sink.new result }
{
    let run = save_alone(alloc, cast, prefix, source, world);
    reported(alloc, sink, run)
}

/// Reads a script, runs it, and saves the disks of its nodes.
fn save<R: Threads + Wait + Sync, C: Cast + Drop, S: Source, W: World>(
    rt: &R,
    alloc: Global,
    cast: C,
    prefix: &str,
    source: &mut S,
    world: &mut W,
) -> Result<Lines, Status>
    requires { HasKeptNothing (W.kept world.old) }
    ensures { SavesSource S.Source (C.program cast) all_rounds
        (views_of W.Dev.Disk W.Luck.Oracle W.Out.Outlet W.scripted) (files_of W.File.Disk W.tells) prefix.now
        (W.filing world.old) (W.filing world.new) (W.kept world.new) source.old source.new result }
{
    let script = said(&cast, None, alloc, source)?;
    let lines = drive_saving(rt, alloc, cast.app(&script), &script, prefix, world)?;
    Ok(lines)
}

/// Reads a script, runs it with no rounds, and saves the disks of its nodes.
fn save_alone<C: Cast + Drop, S: Source, W: World>(
    alloc: Global,
    cast: C,
    prefix: &str,
    source: &mut S,
    world: &mut W,
) -> Result<Lines, Status>
    requires { HasKeptNothing (W.kept world.old) }
    ensures { SavesSource S.Source (C.program cast) no_rounds
        (views_of W.Dev.Disk W.Luck.Oracle W.Out.Outlet W.scripted) (files_of W.File.Disk W.tells) prefix.now
        (W.filing world.old) (W.filing world.new) (W.kept world.new) source.old source.new result }
{
    let script = said(&cast, None, alloc, source)?;
    let lines = drive_saving_alone(alloc, cast.app(&script), &script, prefix, world)?;
    Ok(lines)
}
