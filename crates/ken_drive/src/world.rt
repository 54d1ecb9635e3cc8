// What a run meets beside its script.
ghost use Rattle.std.specs.Prelude.{◌≡◌, ◌≢◌, ◌<◌, ℕ, [], Bool, Option, Some, IfOk};
ghost use Rattle.ken_disk.specs.Story.{blank};
ghost use Rattle.ken_model.specs.declared.facts.TheConstants.{MAX_NODES};
ghost use Rattle.ken_app.specs.Oracles.{HasTold};
ghost use Rattle.ken_store.specs.declared.disks.Disks.{Disks};
ghost use Rattle.ken_drive.specs.Worlds.{IsFatedDisk, IsFatedOutlet};
ghost use Rattle.ken_run.specs.Devices.{IsNewOracle, TellsNothing};

use ken_app::Oracle;
use ken_disk::Disk;
use ken_files::Files;
use ken_memdisk::Cut;
use ken_ship::Outlet;
use ken_store::Disks;
use std::alloc::AllocError;

/// How many disks a node has: its log, its image and its second log are 0, 1 and 2.
pub const DISKS: u8 = 3;

/// What a run meets beside its script: the disks, the oracle and the outlet of each node; and files, which its other calls leave
/// alone. Its disks always tell what they hold and held, so they keep the model of a disk that a crash may tear.
pub trait World: Files {
    type Dev: Disk + Send + Drop;

    type Luck: Oracle + Send + Drop;

    type Out: Outlet + Send + Drop;

    /// The disks, the oracle and the outlet of each node that were given to `keep` last.
    ghost kept: { Self → ℕ → Option (Disks Self.Dev × Self.Luck × Self.Out) };

    /// Whether its disks fail only at the cuts, and its outlets only at the calls, that it was handed, and tell it, and whose they
    /// and its oracles are.
    ghost scripted: { Bool };

    /// An empty disk, with nothing pending, no sync and no fault, for a node below `MAX_NODES` and a disk below `DISKS`. It is to
    /// fail at these cuts, and tells that, and whose it is, where it tells anything of its falls. The error is want of memory.
    fn disk(&mut self, node: u8, which: u8, cuts: &[Cut]) -> Result<Self::Dev, AllocError>
        requires node { node < MAX_NODES }
        requires which { which < DISKS }
        ensures told { IfOk result (λ d. Self.Dev.told d ≡ Some blank) }
        ensures size { IfOk result (λ d. Self.Dev.size d ≡ 0) }
        ensures faults { IfOk result (λ d. Self.Dev.faults d ≡ 0) }
        ensures fate { IfOk result (λ d. IsFatedDisk scripted node which cuts.now (Self.Dev.fate d)) }
        ensures kept { (v : ℕ) → kept self.new v ≡ kept self.old v }
        ensures files { Self.filing self.new ≡ Self.filing self.old };

    /// An oracle for a node below `MAX_NODES` of a run with that seed, which has answered nothing.
    fn oracle(&mut self, node: u8, seed: u64) -> Self::Luck
        requires { node < MAX_NODES }
        ensures clocks { HasTold Self.Luck.telling.always (Self.Luck.telling.clocks result) [] }
        ensures words { HasTold Self.Luck.telling.always (Self.Luck.telling.words result) [] }
        ensures new { IsNewOracle scripted Self.Luck.telling result node seed }
        ensures kept { (v : ℕ) → kept self.new v ≡ kept self.old v }
        ensures files { Self.filing self.new ≡ Self.filing self.old };

    /// An outlet for a node below `MAX_NODES`, which has taken nothing and has no fault. It is to fail at these calls, which are
    /// counted from 1, and tells just these where it tells its calls. The error is want of memory.
    fn outlet(&mut self, node: u8, fails: &[u64]) -> Result<Self::Out, AllocError>
        requires { node < MAX_NODES }
        ensures took { IfOk result (λ o. TellsNothing (Self.Out.took o)) }
        ensures faults { IfOk result (λ o. Self.Out.faults o ≡ 0) }
        ensures fate { IfOk result (λ o. IsFatedOutlet scripted node fails.now (Self.Out.fate o)) }
        ensures kept { (v : ℕ) → kept self.new v ≡ kept self.old v }
        ensures files { Self.filing self.new ≡ Self.filing self.old };

    /// Takes the disks, the oracle and the outlet of a node below `MAX_NODES` back, at the end of a run.
    fn keep(&mut self, node: u8, disks: Disks<Self::Dev>, luck: Self::Luck, out: Self::Out)
        requires { node < MAX_NODES }
        ensures given { kept self.new node ≡ Some (disks, luck, out) }
        ensures others { (v : ℕ) → v ≢ node → kept self.new v ≡ kept self.old v }
        ensures files { Self.filing self.new ≡ Self.filing self.old };

    /// What was given to `keep` stands beside the files.
    ghost apart: { (a b : Self) → Self.rest a ≡ Self.rest b → (v : ℕ) → kept a v ≡ kept b v };
}
