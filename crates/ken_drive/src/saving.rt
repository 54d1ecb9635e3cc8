// A run whose disks are saved as files.
ghost use Rattle.std.specs.Prelude.{◌≡◌, ◌≢◌, ◌<◌, ◌≤◌, ℕ, length, Err};
ghost use Rattle.ken_model.specs.declared.facts.TheConstants.{MAX_NODES};
ghost use Rattle.ken_script.specs.Within.{KeepsRules};
ghost use Rattle.ken_drive.specs.Clauses.{files_of, views_of};
ghost use Rattle.ken_drive.specs.Finishing.{WasKept};
ghost use Rattle.ken_drive.specs.Saving.{SavesRun};
ghost use Rattle.ken_drive.specs.SavingParts.{EndsSavingBy, SavesDisk, SavesDisks, SavesStation, SavesStations, fault_of};
ghost use Rattle.ken_drive.specs.Starting.{Serves};
ghost use Rattle.ken_drive.specs.Worlds.{HasKeptNothing};

use crate::driving::{told, told_by_rounds};
use crate::finishing::{devices_of, give_back, keep_station};
use crate::laws::ended_runs_keep;
use crate::starting::start;
use crate::world::World;
use ken_app::App;
use ken_files::{SaveFault, path, save};
use ken_model::Lines;
use ken_run::{Run, RunFault, Station};
use ken_script::Script;
use ken_store::Disks;
use std::alloc::{AllocError, Global};
use std::sync::Wait;
use std::thread::Threads;
use thiserror::Error;

/// Why a run was not saved.
#[derive(Clone, Copy, Debug, PartialEq, Eq, Error)]
pub enum SavingFault {
    /// There was no run to save, or memory was short.
    #[error("{0}")]
    Run(RunFault),
    /// The file of that disk can't be opened.
    #[error("the file of disk {disk} of node {node} can't be opened")]
    Open { node: u8, disk: u8 },
    /// That disk, or its file, failed while it was copied.
    #[error("disk {disk} of node {node} failed")]
    Device { node: u8, disk: u8 },
}

impl From<RunFault> for SavingFault {
    ghost use Rattle.std.specs.Prelude.{◌≡◌};
    ghost use Rattle.ken_drive.specs.declared.saving.SavingFault.TheVariants.{Run};

    ghost from_gives = { λ fault saving. saving ≡ Run fault };

    fn from(fault: RunFault) -> Self {
        SavingFault::Run(fault)
    }
}

impl From<AllocError> for SavingFault {
    ghost use Rattle.std.specs.Prelude.{◌≡◌};
    ghost use Rattle.ken_run.specs.declared.faults.RunFault.TheVariants.{Memory};
    ghost use Rattle.ken_drive.specs.declared.saving.SavingFault.TheVariants.{Run};

    ghost from_gives = { λ _ saving. saving ≡ Run Memory };

    fn from(_refused: AllocError) -> Self {
        SavingFault::Run(RunFault::Memory)
    }
}

/// Why a run was not saved whose disk was not.
fn fault_at(node: u8, disk: u8, fault: SaveFault) -> SavingFault
    ensures { result ≡ fault_of node disk fault }
{
    match fault {
        SaveFault::Open => SavingFault::Open { node, disk },
        SaveFault::Kept | SaveFault::File => SavingFault::Device { node, disk },
        SaveFault::Memory => SavingFault::Run(RunFault::Memory),
    }
}

/// Saves a disk of a node under its path.
fn save_disk<W: World>(
    alloc: Global,
    prefix: &str,
    node: u8,
    which: u8,
    disk: &mut W::Dev,
    world: &mut W,
) -> Result<(), SavingFault>
    ensures saves { SavesDisk (views_of W.Dev.Disk W.Luck.Oracle W.Out.Outlet W.scripted)
        (files_of W.File.Disk W.tells) prefix.now node which disk.old disk.new
        (W.filing world.old) (W.filing world.new) result }
    ensures rest { W.rest world.new ≡ W.rest world.old }
{
    let path = path(alloc, prefix, node, which)?;
    match save(disk, path.as_str(), world) {
        Ok(()) => Ok(()),
        Err(fault) => Err(fault_at(node, which, fault)),
    }
}

/// Saves the disks of a node, one after the other, up to the first that isn't saved.
fn save_disks<W: World>(
    alloc: Global,
    prefix: &str,
    node: u8,
    disks: &mut Disks<W::Dev>,
    world: &mut W,
) -> Result<(), SavingFault>
    requires { node < MAX_NODES }
    ensures saves { SavesDisks (views_of W.Dev.Disk W.Luck.Oracle W.Out.Outlet W.scripted)
        (files_of W.File.Disk W.tells) prefix.now node disks.old disks.new
        (W.filing world.old) (W.filing world.new) result }
    ensures rest { W.rest world.new ≡ W.rest world.old }
{
    save_disk(alloc, prefix, node, 0, &mut disks.log, world)?;
    save_disk(alloc, prefix, node, 1, &mut disks.image, world)?;
    save_disk(alloc, prefix, node, 2, &mut disks.second, world)
}

/// Saves the disks of a node, and gives its devices to the world, whatever came of it.
fn save_station<W: World>(
    alloc: Global,
    prefix: &str,
    node: u8,
    station: Station<W::Dev, W::Luck, W::Out>,
    world: &mut W,
) -> Result<(), SavingFault>
    requires { node < MAX_NODES }
    ensures saves { SavesStation (views_of W.Dev.Disk W.Luck.Oracle W.Out.Outlet W.scripted)
        (files_of W.File.Disk W.tells) prefix.now node station (W.kept world.new)
        (W.filing world.old) (W.filing world.new) result }
    ensures others { (v : ℕ) → v ≢ node → W.kept world.new v ≡ W.kept world.old v }
{
    let (mut disks, luck, out) = devices_of(station);
    let saved = save_disks(alloc, prefix, node, &mut disks, world);
    world.keep(node, disks, luck, out);
    saved
}

/// Ends a run whose disks are to be saved, node by node in rising order, up to the first that isn't; the devices of all nodes are
/// given to `World::keep`.
fn save_run<W: World, A: Drop>(
    alloc: Global,
    prefix: &str,
    run: Run<W::Dev, W::Luck, W::Out, A>,
    world: &mut W,
) -> Result<(), SavingFault>
    requires { length run.stations.items ≤ MAX_NODES }
    ensures { SavesStations (views_of W.Dev.Disk W.Luck.Oracle W.Out.Outlet W.scripted)
        (files_of W.File.Disk W.tells) prefix.now run (W.kept world.old) (W.kept world.new)
        (W.filing world.old) (W.filing world.new) result }
{
    let mut saved = Ok(());
    for (node, station) in (0..).zip(run.into_stations()) {
        if saved.is_ok() {
            saved = save_station(alloc, prefix, node, station, world);
        } else {
            keep_station(station, node, world);
        }
    }
    saved
}

/// Ends a run that has answered so: its disks are saved, or after an error its devices are given back as `give_back` does.
fn end_saving<W: World, A: Drop>(
    alloc: Global,
    prefix: &str,
    run: Run<W::Dev, W::Luck, W::Out, A>,
    answer: Result<Lines, RunFault>,
    world: &mut W,
) -> Result<Lines, SavingFault>
    requires { (answer ≡ Err RunFault.Memory → ⊥) → length run.stations.items ≤ MAX_NODES }
    ensures { EndsSavingBy (views_of W.Dev.Disk W.Luck.Oracle W.Out.Outlet W.scripted)
        (files_of W.File.Disk W.tells) prefix.now run (W.kept world.old) (W.kept world.new) answer
        (W.filing world.old) (W.filing world.new) result }
{
    match answer {
        Ok(lines) => {
            save_run(alloc, prefix, run, world)?;
            Ok(lines)
        }
        Err(fault) => Ok(give_back(run, Err(fault), world)?),
    }
}

/// Runs a script as `drive` does, and then saves the disks of its nodes: each is copied to a fresh file under the prefix, its
/// node, a dot and its number, which is synced and put back; then the devices are given to `World::keep`, whatever came of it.
/// The first file that can't be opened, or that fails, ends the saving. After `Run` with another fault than `Memory` no file was opened.
pub fn drive_saving<R: Threads + Wait + Sync, W: World, A: App + Sync + Drop>(
    rt: &R,
    alloc: Global,
    app: A,
    script: &Script,
    prefix: &str,
    world: &mut W,
) -> Result<Lines, SavingFault>
    requires serves { Serves (A.handler app) script.now }
    requires rules { KeepsRules script.now }
    requires none { HasKeptNothing (W.kept world.old) }
    ensures { SavesRun (views_of W.Dev.Disk W.Luck.Oracle W.Out.Outlet W.scripted)
        (files_of W.File.Disk W.tells) prefix.now (W.filing world.old) (W.filing world.new) (W.kept world.new)
        (A.handler app) script.now script.now.rounds result }
{
    if script.rounds == 0 {
        return drive_saving_alone(alloc, app, script, prefix, world);
    }
    ended_runs_keep::<W::Dev, W::Luck, W::Out, A>();
    let mut run = start(alloc, app, script, world)?;
    let answer = told_by_rounds(rt, alloc, &mut run, script.rounds);
    end_saving(alloc, prefix, run, answer, world)
}

/// Saves a run as `drive_saving` does, but makes no rounds, whatever the script asks for. It starts no thread and waits for
/// nobody.
pub fn drive_saving_alone<W: World, A: App + Drop>(
    alloc: Global,
    app: A,
    script: &Script,
    prefix: &str,
    world: &mut W,
) -> Result<Lines, SavingFault>
    requires serves { Serves (A.handler app) script.now }
    requires rules { KeepsRules script.now }
    requires none { HasKeptNothing (W.kept world.old) }
    ensures { SavesRun (views_of W.Dev.Disk W.Luck.Oracle W.Out.Outlet W.scripted)
        (files_of W.File.Disk W.tells) prefix.now (W.filing world.old) (W.filing world.new) (W.kept world.new)
        (A.handler app) script.now 0 result }
{
    ended_runs_keep::<W::Dev, W::Luck, W::Out, A>();
    let mut run = start(alloc, app, script, world)?;
    let answer = told(alloc, &mut run);
    end_saving(alloc, prefix, run, answer, world)
}
