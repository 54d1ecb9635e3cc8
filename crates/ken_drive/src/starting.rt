// How a run starts.
ghost use Rattle.std.specs.Prelude.{◌+◌, ◌≡◌, ◌<◌, ◌≤◌, ℕ, IfOk};
ghost use Rattle.ken_model.specs.Game.{game_of};
ghost use Rattle.ken_model.specs.Limits.{IsWithinLimits};
ghost use Rattle.ken_drive.specs.Starting.{HasModestActs, Serves, game_by};
ghost use Rattle.ken_drive.specs.Worlds.{HasKeptNothing};
ghost use Rattle.ken_drive.specs.Clauses.{AccountsFilled, AccountsStarted, FillsRun, RefusesStarted, StartsRun};
ghost use Rattle.ken_run.specs.Clauses.{Started};

use crate::devices::station;
use crate::finishing::finish;
use crate::world::World;
use ken_app::{App, Oracle};
use ken_disk::Disk;
use ken_node::Watched;
use ken_run::{Run, RunFault};
use ken_script::Script;
use ken_ship::Outlet;
use std::alloc::{AllocError, Global};

/// The run of a script without its nodes.
fn empty<D: Disk + Drop, O: Oracle + Drop, U: Outlet + Drop, A: App + Drop>(
    alloc: Global,
    app: A,
    script: &Script,
) -> Result<Run<D, O, U, A>, AllocError>
    requires limits { IsWithinLimits (game_of script.now.facts) }
    requires serves { Serves (A.handler app) script.now }
    ensures started { IfOk result (λ r. Started D.Disk U.Outlet A.App (game_by (A.handler app) script.now) 0 r) }
    ensures most { IfOk result (λ r. r.restarts ≡ script.now.restarts) }
{
    Run::new(alloc, app, script.facts.nodes, script.restarts)
}

/// Creates the nodes of a run, in rising order, up to the first that can't be.
fn fill<W: World, A: App + Drop>(
    run: &mut Run<W::Dev, W::Luck, W::Out, A>,
    alloc: Global,
    script: &Script,
    world: &mut W,
) -> Result<(), RunFault>
    requires limits { IsWithinLimits (game_of script.now.facts) }
    requires modest { HasModestActs script.now }
    requires started { Started W.Dev.Disk W.Out.Outlet A.App (game_by (A.handler run.old.app) script.now) 0 run.old }
    requires most { run.old.restarts ≡ script.now.restarts }
    ensures fills { FillsRun W.Dev.Disk W.Luck.Oracle W.Out.Outlet A.App
        W.scripted (A.handler run.old.app) script.now result run.new }
    ensures accounts { AccountsFilled W.Dev.Disk W.Luck.Oracle W.Out.Outlet A.App
        W.scripted (A.handler run.old.app) script.now result run.new }
    ensures refused { IfOk result (λ x. RefusesStarted W.Out.Outlet W.scripted script.now run.new) }
    ensures kept { (v : ℕ) → W.kept world.new v ≡ W.kept world.old v }
    ensures files { W.filing world.new ≡ W.filing world.old }
{
    for node in 0..script.facts.nodes {
        run.join(station(alloc, script, node, world)?)?;
    }
    Ok(())
}

/// Starts the run of a script with an application: each node is made with devices of its own from the world, and created on its empty
/// disks, in rising order. A node whose disk fails then is restarted, as often as the script lets it be. `Down`: that node's disks failed once more;
/// the devices of all nodes that were made, its own too, were given to `World::keep`. After `Memory` nothing is kept.
pub fn start<W: World, A: App + Drop>(
    alloc: Global,
    app: A,
    script: &Script,
    world: &mut W,
) -> Result<Run<W::Dev, W::Luck, W::Out, A>, RunFault>
    requires limits { IsWithinLimits (game_of script.now.facts) }
    requires modest { HasModestActs script.now }
    requires serves { Serves (A.handler app) script.now }
    requires none { HasKeptNothing (W.kept world.old) }
    ensures starts { StartsRun W.Dev.Disk W.Luck.Oracle W.Out.Outlet A.App
        W.scripted (A.handler app) script.now result (W.kept world.new) }
    ensures accounts { AccountsStarted W.Dev.Disk W.Luck.Oracle W.Out.Outlet A.App
        W.scripted (A.handler app) script.now result (W.kept world.new) }
    ensures refused { IfOk result (RefusesStarted W.Out.Outlet W.scripted script.now) }
    ensures files { W.filing world.new ≡ W.filing world.old }
{
    let mut run = empty(alloc, app, script)?;
    match fill(&mut run, alloc, script, world) {
        Ok(()) => Ok(run),
        Err(RunFault::Memory) => Err(RunFault::Memory),
        Err(RunFault::Down { node }) => {
            finish(run, world);
            Err(RunFault::Down { node })
        }
        Err(RunFault::Damaged { node, disk, place }) => {
            finish(run, world);
            Err(RunFault::Damaged { node, disk, place })
        }
    }
}
