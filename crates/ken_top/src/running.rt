// A script is read and run, and the report of its run written.
ghost use Rattle.std.specs.Prelude.{◌≡◌, ◌≢◌, ◌+◌, ◌≤◌, IfOk, IfErr, IsErrOf};
ghost use Rattle.ken_io.specs.Causes.{Rose};
ghost use Rattle.ken_io.specs.Transfers.{TakesAtMost};
ghost use Rattle.ken_script.specs.Within.{KeepsRules};
ghost use Rattle.ken_drive.specs.Clauses.{views_of};
ghost use Rattle.ken_drive.specs.Worlds.{HasKeptNothing};
ghost use Rattle.ken_top.specs.Does.{PlaysSource, ReportsSource, WritesReport, all_rounds, no_rounds};
ghost use Rattle.ken_top.specs.Headline.{IsOut, IsScriptOf, IsUnsaid};
ghost use Rattle.ken_top.specs.Programs.{by_seed, drawn_by};

use crate::cast::Cast;
use crate::status::Status;
use ken_drive::{World, drive, drive_alone};
use ken_gen::torment;
use ken_io::{Sink, Source, read_all};
use ken_model::Lines;
use ken_report::print;
use ken_script::{LIMIT, Script};
use std::alloc::{AllocError, Global};
use std::sync::Wait;
use std::thread::Threads;

/// Reads a script, with the faults of a seed where there is one, runs it, and writes its report.
pub(crate) fn ran<R: Threads + Wait + Sync, C: Cast + Drop, S: Source, K: Sink, W: World>(
    rt: &R,
    alloc: Global,
    cast: C,
    seed: Option<u64>,
    source: &mut S,
    sink: &mut K,
    world: &mut W,
) -> Status
    requires { HasKeptNothing (W.kept world.old) }
    ensures reports { ReportsSource S.Source K.Sink (by_seed seed (C.program cast)) all_rounds
        (views_of W.Dev.Disk W.Luck.Oracle W.Out.Outlet W.scripted) (W.kept world.new)
        source.old source.new sink.old sink.new result }
    ensures files { W.filing world.new ≡ W.filing world.old }
{
    let run = run(rt, alloc, cast, seed, source, world);
    reported(alloc, sink, run)
}

/// Does what `ran` does, with no rounds.
pub(crate) fn ran_alone<C: Cast + Drop, S: Source, K: Sink, W: World>(
    alloc: Global,
    cast: C,
    seed: Option<u64>,
    source: &mut S,
    sink: &mut K,
    world: &mut W,
) -> Status
    requires { HasKeptNothing (W.kept world.old) }
    ensures reports { ReportsSource S.Source K.Sink (by_seed seed (C.program cast)) no_rounds
        (views_of W.Dev.Disk W.Luck.Oracle W.Out.Outlet W.scripted) (W.kept world.new)
        source.old source.new sink.old sink.new result }
    ensures files { W.filing world.new ≡ W.filing world.old }
{
    let run = run_alone(alloc, cast, seed, source, world);
    reported(alloc, sink, run)
}

/// Reads a script and runs it.
fn run<R: Threads + Wait + Sync, C: Cast + Drop, S: Source, W: World>(
    rt: &R,
    alloc: Global,
    cast: C,
    seed: Option<u64>,
    source: &mut S,
    world: &mut W,
) -> Result<Lines, Status>
    requires { HasKeptNothing (W.kept world.old) }
    ensures plays { PlaysSource S.Source (by_seed seed (C.program cast)) all_rounds
        (views_of W.Dev.Disk W.Luck.Oracle W.Out.Outlet W.scripted) (W.kept world.new)
        source.old source.new result }
    ensures files { W.filing world.new ≡ W.filing world.old }
{
    let script = said(&cast, seed, alloc, source)?;
    let lines = drive(rt, alloc, cast.app(&script), &script, world)?;
    Ok(lines)
}

/// Reads a script and runs it with no rounds.
fn run_alone<C: Cast + Drop, S: Source, W: World>(
    alloc: Global,
    cast: C,
    seed: Option<u64>,
    source: &mut S,
    world: &mut W,
) -> Result<Lines, Status>
    requires { HasKeptNothing (W.kept world.old) }
    ensures plays { PlaysSource S.Source (by_seed seed (C.program cast)) no_rounds
        (views_of W.Dev.Disk W.Luck.Oracle W.Out.Outlet W.scripted) (W.kept world.new)
        source.old source.new result }
    ensures files { W.filing world.new ≡ W.filing world.old }
{
    let script = said(&cast, seed, alloc, source)?;
    let lines = drive_alone(alloc, cast.app(&script), &script, world)?;
    Ok(lines)
}

/// Reads a script of a program, and puts the faults of a seed behind its own, where there is a seed.
pub(crate) fn said<C: Cast, S: Source>(
    cast: &C,
    seed: Option<u64>,
    alloc: Global,
    source: &mut S,
) -> Result<Script, Status>
    ensures said { IfOk result (IsScriptOf (by_seed seed (C.program cast.now)) (S.left source.old)) }
    ensures rules { IfOk result KeepsRules }
    ensures unsaid { IfErr result (IsUnsaid (by_seed seed (C.program cast.now)) (S.left source.old)) }
    ensures read { IsErrOf result Status.Read → Rose (S.faults source.old) (S.faults source.new) }
    ensures no_failed_read { (IsErrOf result Status.Read → ⊥) → S.faults source.new ≡ S.faults source.old }
    ensures taken { TakesAtMost (LIMIT + 1) (S.left source.old) (S.left source.new) }
    ensures faults { S.faults source.old ≤ S.faults source.new }
{
    let bytes = read_all(alloc, source, LIMIT)?;
    let plain = cast.read(alloc, bytes.as_slice())?;
    let script = with_faults(seed, plain)?;
    Ok(script)
}

/// A script with the faults of a seed behind its own, where there is a seed.
fn with_faults(seed: Option<u64>, script: Script) -> Result<Script, AllocError>
    requires { KeepsRules script }
    ensures drawn { IfOk result (λ s. s ≡ drawn_by seed script) }
    ensures rules { IfOk result KeepsRules }
{
    match seed {
        Some(seed) => torment(seed, script),
        None => Ok(script),
    }
}

/// Writes the report of a run, or answers why there is none.
pub(crate) fn reported<K: Sink>(alloc: Global, sink: &mut K, run: Result<Lines, Status>) -> Status
    ensures { WritesReport K.Sink run sink.old sink.new result }
{
    match run {
        Ok(lines) => printed(alloc, sink, &lines),
        Err(status) => status,
    }
}

/// Writes a report, and answers how its run ended.
fn printed<K: Sink>(alloc: Global, sink: &mut K, lines: &Lines) -> Status
    ensures out { IsOut (K.took sink.old) (K.took sink.new) lines.now result }
    ensures write { result ≡ Status.Write → Rose (K.faults sink.old) (K.faults sink.new) }
    ensures no_failed_write { result ≢ Status.Write → K.faults sink.new ≡ K.faults sink.old }
    ensures faults { K.faults sink.old ≤ K.faults sink.new }
{
    match print(alloc, sink, lines) {
        Ok(()) => Status::from(lines.ending),
        Err(fault) => Status::from(fault),
    }
}
