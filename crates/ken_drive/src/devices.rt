// The devices of one node of a run.
ghost use Rattle.std.specs.Prelude.{◌≡◌, ◌<◌, ℕ, IfOk, Some};
ghost use Rattle.ken_disk.specs.Story.{blank};
ghost use Rattle.ken_model.specs.declared.facts.TheConstants.{MAX_NODES};
ghost use Rattle.ken_model.specs.Game.{game_of};
ghost use Rattle.ken_model.specs.Limits.{IsWithinLimits};
ghost use Rattle.ken_drive.specs.declared.world.TheConstants.{DISKS};
ghost use Rattle.ken_drive.specs.Starting.{HasOwn, cuts_for, fails_for, terms_of};
ghost use Rattle.ken_run.specs.Creating.{IsBlank, IsBorn, IsFresh};
ghost use Rattle.ken_drive.specs.Worlds.{IsFatedDisk, IsFatedOutlet};
ghost use Rattle.ken_run.specs.Devices.{TellsNothing};

use crate::world::World;
use ken_disk::Disk;
use ken_memdisk::Cut;
use ken_net::Links;
use ken_node::{Node, Watched};
use ken_run::Station;
use ken_script::{DiskCut, OutFail, Script};
use ken_store::Disks;
use std::alloc::{AllocError, Global};

/// The cuts of a disk of a node, in the order of the list.
fn cuts_of(alloc: Global, cuts: &[DiskCut], node: u8, disk: u8) -> Result<Vec<Cut>, AllocError>
    ensures { IfOk result (λ found. found.items ≡ cuts_for node disk cuts.now) }
{
    cuts.iter()
        .filter(|cut| cut.node == node && cut.disk == disk)
        .map(|cut| Cut {
            call: cut.call,
            pick: cut.pick,
        })
        .collect(alloc)
}

/// The calls of a node's outlet that fail, in the order of the list.
fn fails_of(alloc: Global, outlets: &[OutFail], node: u8) -> Result<Vec<u64>, AllocError>
    ensures { IfOk result (λ found. found.items ≡ fails_for node outlets.now) }
{
    outlets
        .iter()
        .filter(|fail| fail.node == node)
        .map(|fail| fail.call)
        .collect(alloc)
}

/// An empty disk of a node, which fails at its cuts, with no failure noted.
fn disk<W: World>(
    alloc: Global,
    script: &Script,
    node: u8,
    which: u8,
    world: &mut W,
) -> Result<Watched<W::Dev>, AllocError>
    requires node { node < MAX_NODES }
    requires which { which < DISKS }
    ensures told { IfOk result (λ d. W.Dev.told d.disk ≡ Some blank) }
    ensures faults { IfOk result (λ d. W.Dev.faults d.disk ≡ 0) }
    ensures fate { IfOk result (λ d. IsFatedDisk W.scripted node which (cuts_for node which script.now.cuts)
        (W.Dev.fate d.disk)) }
    ensures kept { (v : ℕ) → W.kept world.new v ≡ W.kept world.old v }
    ensures files { W.filing world.new ≡ W.filing world.old }
{
    let cuts = cuts_of(alloc, script.cuts.as_slice(), node, which)?;
    Ok(Watched::new(world.disk(node, which, cuts.as_slice())?))
}

/// The disks of a node.
fn disks<W: World>(
    alloc: Global,
    script: &Script,
    node: u8,
    world: &mut W,
) -> Result<Disks<Watched<W::Dev>>, AllocError>
    requires { node < MAX_NODES }
    ensures fresh { IfOk result (λ d. IsFresh ⟦<Watched<W::Dev> as Disk>⟧.faults ⟦<Watched<W::Dev> as Disk>⟧.fate
        (terms_of W.scripted script.now) node d) }
    ensures log { IfOk result (λ d. W.Dev.told d.log.disk ≡ Some blank) }
    ensures image { IfOk result (λ d. W.Dev.told d.image.disk ≡ Some blank) }
    ensures second { IfOk result (λ d. W.Dev.told d.second.disk ≡ Some blank) }
    ensures kept { (v : ℕ) → W.kept world.new v ≡ W.kept world.old v }
    ensures files { W.filing world.new ≡ W.filing world.old }
{
    Ok(Disks {
        log: disk(alloc, script, node, 0, world)?,
        image: disk(alloc, script, node, 1, world)?,
        second: disk(alloc, script, node, 2, world)?,
    })
}

/// A node over its disks, which isn't created yet.
fn uncreated<W: World>(
    alloc: Global,
    script: &Script,
    node: u8,
    world: &mut W,
) -> Result<Node<Watched<W::Dev>>, AllocError>
    requires limits { IsWithinLimits (game_of script.now.facts) }
    requires known { node < script.now.facts.nodes }
    ensures blank { IfOk result (λ n. IsBlank ⟦<Watched<W::Dev> as Disk>⟧.told
        (game_of script.now.facts) node n.stage) }
    ensures fresh { IfOk result (λ n. (b : IsBlank ⟦<Watched<W::Dev> as Disk>⟧.told
        (game_of script.now.facts) node n.stage)
        → IsFresh ⟦<Watched<W::Dev> as Disk>⟧.faults ⟦<Watched<W::Dev> as Disk>⟧.fate
        (terms_of W.scripted script.now) node b.disks) }
    ensures kept { (v : ℕ) → W.kept world.new v ≡ W.kept world.old v }
    ensures files { W.filing world.new ≡ W.filing world.old }
{
    let disks = disks(alloc, script, node, world)?;
    match Node::new(alloc, disks, node, &script.facts) {
        Ok(uncreated) => Ok(uncreated),
        Err((refused, _disks)) => Err(refused),
    }
}

/// The outlet of a node, which fails at its calls.
fn outlet<W: World>(
    alloc: Global,
    script: &Script,
    node: u8,
    world: &mut W,
) -> Result<W::Out, AllocError>
    requires { node < MAX_NODES }
    ensures took { IfOk result (λ o. TellsNothing (W.Out.took o)) }
    ensures faults { IfOk result (λ o. W.Out.faults o ≡ 0) }
    ensures fate { IfOk result (λ o. IsFatedOutlet W.scripted node (fails_for node script.now.outlets) (W.Out.fate o)) }
    ensures kept { (v : ℕ) → W.kept world.new v ≡ W.kept world.old v }
    ensures files { W.filing world.new ≡ W.filing world.old }
{
    let fails = fails_of(alloc, script.outlets.as_slice(), node)?;
    world.outlet(node, fails.as_slice())
}

/// A node of a run with its devices, fresh from the world, which isn't created yet.
pub(crate) fn station<W: World>(
    alloc: Global,
    script: &Script,
    node: u8,
    world: &mut W,
) -> Result<Station<W::Dev, W::Luck, W::Out>, AllocError>
    requires limits { IsWithinLimits (game_of script.now.facts) }
    requires known { node < script.now.facts.nodes }
    ensures born { IfOk result (λ s. IsBorn ⟦<Watched<W::Dev> as Disk>⟧.told (game_of script.now.facts) node s) }
    ensures fresh { IfOk result (λ s. (b : IsBorn ⟦<Watched<W::Dev> as Disk>⟧.told
        (game_of script.now.facts) node s)
        → IsFresh ⟦<Watched<W::Dev> as Disk>⟧.faults ⟦<Watched<W::Dev> as Disk>⟧.fate
        (terms_of W.scripted script.now) node b.over.disks) }
    ensures own { IfOk result
        (λ s. HasOwn W.scripted W.Luck.telling W.Out.took W.Out.faults W.Out.fate script.now node s) }
    ensures kept { (v : ℕ) → W.kept world.new v ≡ W.kept world.old v }
    ensures files { W.filing world.new ≡ W.filing world.old }
{
    let nodes = script.facts.nodes;
    let mail = Links::new(alloc, node, nodes, script.mail.as_slice())?;
    let acks = Links::new(alloc, node, nodes, script.acks.as_slice())?;
    let out = outlet(alloc, script, node, world)?;
    let luck = world.oracle(node, script.seed);
    Ok(Station {
        node: uncreated(alloc, script, node, world)?,
        luck,
        out,
        mail,
        acks,
        restarts: 0,
        lines: Vec::new(alloc),
    })
}
