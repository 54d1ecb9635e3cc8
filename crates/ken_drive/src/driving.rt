// A whole run.
ghost use Rattle.std.specs.Prelude.{◌≡◌, ◌*◌, ◌<◌, OnOk};
ghost use Rattle.ken_model.specs.Kinds.{handler_of};
ghost use Rattle.ken_script.specs.Within.{KeepsRules};
ghost use Rattle.ken_drive.specs.Driven.{Drives};
ghost use Rattle.ken_run.specs.Patched.{AddStates, HaveImages};
ghost use Rattle.ken_drive.specs.Starting.{Serves};
ghost use Rattle.ken_drive.specs.Worlds.{HasKeptNothing};
ghost use Rattle.ken_run.specs.Clauses.{Drains};
ghost use Rattle.ken_drive.specs.Clauses.{TellsRun, views_of};

use crate::finishing::give_back;
use crate::laws::{ended_runs_keep, kinds_serve};
use crate::report::lines;
use crate::starting::start;
use crate::world::World;
use ken_app::{App, Oracle};
use ken_apps::KindApp;
use ken_disk::Disk;
use ken_model::Lines;
use ken_node::Watched;
use ken_rounds::threaded;
use ken_run::{Run, RunFault};
use ken_script::Script;
use ken_ship::Outlet;
use ken_threads::OpenGate;
use std::alloc::Global;
use std::sync::Wait;
use std::thread::Threads;

/// Drains a run, and answers what it says then. The errors are those of `drain` and `lines`.
pub(crate) fn told<D: Disk, O: Oracle, U: Outlet, A: App>(
    alloc: Global,
    run: &mut Run<D, O, U, A>,
) -> Result<Lines, RunFault>
    requires { Drains D.Disk U.Outlet A.App run.old }
    ensures tells { TellsRun D.Disk O.Oracle U.Outlet A.App run.old result run.new }
    ensures images { OnOk result (HaveImages ⟦<Watched<D> as Disk>⟧.told run.new) }
    ensures states { AddStates ⟦<Watched<D> as Disk>⟧.told 0 run.old result run.new }
{
    run.drain()?;
    Ok(lines(alloc, run)?)
}

/// Makes so many rounds of a run, drains it, and answers what it says then. The errors are those of `threaded`, `drain` and
/// `lines`.
pub(crate) fn told_by_rounds<R, D, O, U, A>(
    rt: &R,
    alloc: Global,
    run: &mut Run<D, O, U, A>,
    rounds: u64,
) -> Result<Lines, RunFault>
where
    R: Threads + Wait + Sync,
    D: Disk + Send + Drop,
    O: Oracle + Send + Drop,
    U: Outlet + Send + Drop,
    A: App + Sync,
    requires { Drains D.Disk U.Outlet A.App run.old }
    ensures tells { TellsRun D.Disk O.Oracle U.Outlet A.App run.old result run.new }
    ensures images { OnOk result (HaveImages ⟦<Watched<D> as Disk>⟧.told run.new) }
    ensures states { AddStates ⟦<Watched<D> as Disk>⟧.told (16 * rounds) run.old result run.new }
{
    threaded(rt, alloc, run, rounds, &OpenGate)?;
    told(alloc, run)
}

/// Runs a script with an application over the devices of a world, and answers the lines of its report. The script's kind
/// isn't looked at. Where it asks for rounds, the workers of all nodes run as threads in these, and then one thread goes on.
/// A round may wait where a wire is in another thread's hands; with no rounds this is `drive_alone`. The disks, the oracle
/// and the outlet of each node are given to `World::keep` then. `Down`: that node's disks failed once more than it may be
/// restarted, or its outlet refused one output 65 times in a row; the devices of each node that was made are given back
/// too. After `Memory` nothing is kept.
pub fn drive<R: Threads + Wait + Sync, W: World, A: App + Sync + Drop>(
    rt: &R,
    alloc: Global,
    app: A,
    script: &Script,
    world: &mut W,
) -> Result<Lines, RunFault>
    requires serves { Serves (A.handler app) script.now }
    requires rules { KeepsRules script.now }
    requires none { HasKeptNothing (W.kept world.old) }
    ensures drives { Drives (views_of W.Dev.Disk W.Luck.Oracle W.Out.Outlet W.scripted) (A.handler app) script.now
        script.now.rounds (W.kept world.new) result }
    ensures files { W.filing world.new ≡ W.filing world.old }
{
    if script.rounds == 0 {
        return drive_alone(alloc, app, script, world);
    }
    ended_runs_keep::<W::Dev, W::Luck, W::Out, A>();
    let mut run = start(alloc, app, script, world)?;
    let answer = told_by_rounds(rt, alloc, &mut run, script.rounds);
    give_back(run, answer, world)
}

/// Runs a script as `drive` does, but makes no rounds, whatever the script asks for. It starts no thread and waits for
/// nobody.
pub fn drive_alone<W: World, A: App + Drop>(
    alloc: Global,
    app: A,
    script: &Script,
    world: &mut W,
) -> Result<Lines, RunFault>
    requires serves { Serves (A.handler app) script.now }
    requires rules { KeepsRules script.now }
    requires none { HasKeptNothing (W.kept world.old) }
    ensures drives { Drives (views_of W.Dev.Disk W.Luck.Oracle W.Out.Outlet W.scripted) (A.handler app) script.now 0
        (W.kept world.new) result }
    ensures files { W.filing world.new ≡ W.filing world.old }
{
    ended_runs_keep::<W::Dev, W::Luck, W::Out, A>();
    let mut run = start(alloc, app, script, world)?;
    let answer = told(alloc, &mut run);
    give_back(run, answer, world)
}

/// Runs a script with the handler of its kind, as `drive` does with an application.
pub fn drive_kind<R: Threads + Wait + Sync, W: World>(
    rt: &R,
    alloc: Global,
    script: &Script,
    world: &mut W,
) -> Result<Lines, RunFault>
    requires rules { KeepsRules script.now }
    requires none { HasKeptNothing (W.kept world.old) }
    ensures drives { Drives (views_of W.Dev.Disk W.Luck.Oracle W.Out.Outlet W.scripted)
        (handler_of script.now.facts.kind) script.now script.now.rounds (W.kept world.new) result }
    ensures files { W.filing world.new ≡ W.filing world.old }
{
    kinds_serve();
    drive(rt, alloc, KindApp(script.facts.kind), script, world)
}

/// Runs a script with the handler of its kind, as `drive_alone` does with an application.
pub fn drive_kind_alone<W: World>(
    alloc: Global,
    script: &Script,
    world: &mut W,
) -> Result<Lines, RunFault>
    requires rules { KeepsRules script.now }
    requires none { HasKeptNothing (W.kept world.old) }
    ensures drives { Drives (views_of W.Dev.Disk W.Luck.Oracle W.Out.Outlet W.scripted)
        (handler_of script.now.facts.kind) script.now 0 (W.kept world.new) result }
    ensures files { W.filing world.new ≡ W.filing world.old }
{
    kinds_serve();
    drive_alone(alloc, KindApp(script.facts.kind), script, world)
}
