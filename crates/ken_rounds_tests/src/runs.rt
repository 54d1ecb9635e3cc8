// Runs of scripts over a world in memory, and their reports.
ghost use Rattle.std.specs.Prelude.{IfOk, IfSome, OnOk};
ghost use Rattle.ken_model.specs.Game.{game_of};
ghost use Rattle.ken_model.specs.Kinds.{handler_of};
ghost use Rattle.ken_model.specs.Limits.{IsWithinLimits};
ghost use Rattle.ken_run.specs.Clauses.{Drains};
ghost use Rattle.ken_drive.specs.Starting.{HasModestActs, Serves};

use ken_app::App;
use ken_apps::KindApp;
use ken_disk::Disk;
use ken_drive::{MemOracle, MemOutlet, MemWorld, Run, RunFault, kinds_serve, lines, start};
use ken_io::MemSink;
use ken_memdisk::MemDisk;
use ken_model::Items;
use ken_report::print;
use ken_rounds::threaded;
use ken_script::Script;
use ken_ship::Outlet;
use ken_threads::Gate;
use std::alloc::{AllocError, Global};
use std::str::from_utf8;
use std::sync::Wait;
use std::test::Fail;
use std::thread::Threads;

/// A run over a world in memory.
pub(crate) type MemRun = Run<MemDisk, MemOracle, MemOutlet, KindApp>;

// Room for a report.
const ROOM: usize = 1 << 16;

// What a text says, if it breaks no rule.
fn script(alloc: Global, text: &str) -> Option<Script>
    ensures limits { IfSome result (λ s. IsWithinLimits (game_of s.facts)) }
    ensures modest { IfSome result HasModestActs }
    ensures serves { IfSome result (λ s. Serves (handler_of s.facts.kind) s) }
{
    kinds_serve();
    match ken_script::read(alloc, text.as_bytes()) {
        Ok(script) => Some(script),
        Err(_) => None,
    }
}

/// The run of a script that has started.
pub(crate) fn started(alloc: Global, text: &str) -> Result<MemRun, Fail>
    ensures { IfOk result (Drains ⟦<MemDisk as Disk>⟧ ⟦<MemOutlet as Outlet>⟧ ⟦<KindApp as App>⟧) }
{
    let script = script(alloc, text).ok_or("script")?;
    let mut world = MemWorld::new(alloc);
    Ok(start(alloc, KindApp(script.facts.kind), &script, &mut world)?)
}

/// Makes so many rounds of a run, which may go on after them.
pub(crate) fn rounds_of<R: Threads + Wait + Sync, G: Gate + Sync>(
    rt: &R,
    alloc: Global,
    run: &mut MemRun,
    rounds: u64,
    gate: &G,
) -> Result<(), RunFault>
    requires { Drains ⟦<MemDisk as Disk>⟧ ⟦<MemOutlet as Outlet>⟧ ⟦<KindApp as App>⟧ run.old }
    ensures { OnOk result (Drains ⟦<MemDisk as Disk>⟧ ⟦<MemOutlet as Outlet>⟧ ⟦<KindApp as App>⟧ run.new) }
{
    threaded(rt, alloc, run, rounds, gate)
}

/// The report of a run that goes on on one thread until it has ended.
pub(crate) fn drained(alloc: Global, run: &mut MemRun) -> Result<String, Fail>
    requires { Drains ⟦<MemDisk as Disk>⟧ ⟦<MemOutlet as Outlet>⟧ ⟦<KindApp as App>⟧ run.old }
{
    run.drain()?;
    let lines = lines(alloc, run)?;
    let mut sink = MemSink::new(alloc, ROOM, Items::new(Vec::new(alloc)), ROOM)?;
    print(alloc, &mut sink, &lines)?;
    Ok(String::from_str(alloc, from_utf8(sink.bytes())?)?)
}

/// The report of a script's run that makes so many rounds, and then goes on on one thread until it has ended.
pub(crate) fn report<R: Threads + Wait + Sync, G: Gate + Sync>(
    rt: &R,
    alloc: Global,
    text: &str,
    rounds: u64,
    gate: &G,
) -> Result<String, Fail> {
    let mut run = started(alloc, text)?;
    rounds_of(rt, alloc, &mut run, rounds, gate)?;
    drained(alloc, &mut run)
}

/// How many turns each of three nodes has made.
pub(crate) fn turns(run: MemRun) -> [u64; 3] {
    let mut turns = [0; 3];
    for (turns, station) in turns.iter_mut().zip(run.into_stations()) {
        *turns = station.node.turns().len() as u64;
    }
    turns
}

/// The lines of a report that tell of restarts.
pub(crate) fn restarts(alloc: Global, report: &str) -> Result<String, AllocError> {
    let mut text = String::new(alloc);
    for line in report.lines() {
        if line.starts_with("restart ") {
            text.push_str(line)?;
            text.push_str("\n")?;
        }
    }
    Ok(text)
}

/// A report without its restarts, and with each line once: what is left doesn't tell of faults.
pub(crate) fn faultless(alloc: Global, report: &str) -> Result<String, AllocError> {
    let mut text = String::new(alloc);
    for line in report.lines() {
        let again = text.lines().any(|before| before == line);
        if !again && !line.starts_with("restart ") {
            text.push_str(line)?;
            text.push_str("\n")?;
        }
    }
    Ok(text)
}
