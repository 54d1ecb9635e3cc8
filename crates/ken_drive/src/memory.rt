// A world in memory.
ghost use Rattle.std.specs.Prelude.{◌≡◌, None, slice_index_or, option_copied};
ghost use Rattle.ken_drive.specs.Worlds.{HasKeptNothing};

use crate::oracle::MemOracle;
use crate::outlet::MemOutlet;
use crate::world::World;
use ken_files::{Files, MemFiles, OpenFault};
use ken_memdisk::{Cut, MemDisk};
use ken_model::MAX_NODES;
use ken_store::Disks;
use std::alloc::{AllocError, Global};
use std::marker::Model;

/// How many nodes there may be, as an index.
const NODES: usize = MAX_NODES as usize;

/// What a world in memory keeps of a node.
#[derive(Debug, Drop)]
pub struct Kept {
    pub disks: Disks<MemDisk>,
    pub luck: MemOracle,
    pub out: MemOutlet,
}

/// A world in memory, over files. It has a slot for each node, so `keep` takes no memory. Its disks and outlets fail just where
/// they are told to.
#[derive(Debug, Drop)]
pub struct MemWorld<F = MemFiles> {
    alloc: Global,
    kept: [Option<Kept>; NODES],
    files: F,
}

impl<F> Model for MemWorld<F> {
    ghost use Rattle.ken_drive.specs.Worlds.{Holdings};

    ghost Value = { Holdings F };

    ghost view = { λ w. record { kept = w.kept; files = w.files } };
}

impl MemWorld {
    /// A world that has kept nothing, over files in memory: there are none, and nothing fails.
    pub fn new(alloc: Global) -> Self
        ensures { HasKeptNothing (λ v. slice_index_or result.kept v None) }
    {
        MemWorld::over(alloc, MemFiles::new(alloc))
    }
}

impl<F> MemWorld<F> {
    /// A world that has kept nothing, over these files.
    pub fn over(alloc: Global, files: F) -> Self
        ensures kept { HasKeptNothing (λ v. slice_index_or result.kept v None) }
        ensures files { result.files ≡ files }
    {
        MemWorld {
            alloc,
            kept: [None, None, None, None, None, None, None, None],
            files,
        }
    }

    /// What was given to `keep` last of a node, or `None`.
    pub fn kept(&self, node: u8) -> Option<&Kept>
        ensures { option_copied result ≡ slice_index_or self.now.kept node None }
    {
        self.kept.get(usize::from(node))?.as_ref()
    }

    /// Its files.
    pub fn files(&self) -> &F
        ensures { result.now ≡ self.now.files }
    {
        &self.files
    }
}

impl<F: Files> Files for MemWorld<F> {
    ghost use Rattle.std.specs.Prelude.{List, Option};
    ghost use Rattle.ken_drive.specs.declared.memory.Kept.{Kept};

    type File = F::File;

    ghost filing = { λ w. F.filing w.files };

    ghost tells = { F.tells };

    ghost Rest = { List (Option Kept) × F.Rest };

    ghost rest = { λ w. (w.kept, F.rest w.files) };

    fn found(&mut self, path: &str, fresh: bool) -> Result<F::File, OpenFault> {
        self.files.found(path, fresh)
    }

    fn put_back(&mut self, path: &str, file: F::File) {
        self.files.put_back(path, file);
    }
}

impl<F: Files> World for MemWorld<F> {
    ghost use Rattle.std.specs.Prelude.{◌≡◌, ◌≢◌, ◌<◌, ◌≤◌, ◌↔◌, ℕ, length, IfOk, slice_index_or, true, None, Some};
    ghost use Rattle.std.specs.List.{Contains};
    ghost use Rattle.std.specs.Option.{option_map};
    ghost use Rattle.std.proofs.Common.{ap};
    ghost use Rattle.ken_disk.specs.Story.{blank};
    ghost use Rattle.ken_memdisk.specs.Calls.{no_calls, fate_of};
    ghost use Rattle.ken_model.specs.declared.facts.TheConstants.{MAX_NODES};
    ghost use Rattle.ken_drive.specs.Oracles.{unasked};
    ghost use Rattle.ken_drive.specs.Outlets.{untaken};

    type Dev = MemDisk;

    type Luck = MemOracle;

    type Out = MemOutlet;

    ghost kept = { λ w v. option_map (λ k. (k.disks, k.luck, k.out)) (slice_index_or w.kept v None) };

    ghost scripted = { true };

    /// The disk of a node that fails at the cuts, as `MemDisk::of_node` makes it.
    fn disk(&mut self, node: u8, which: u8, cuts: &[Cut]) -> Result<MemDisk, AllocError>
        ensures story { IfOk result (λ d. d.held.story ≡ blank) }
        ensures calls { IfOk result (λ d. d.calls ≡ no_calls node which cuts.now) }
        ensures falls { IfOk result (λ d. (fate_of d.calls).falls ≤ length cuts.now) }
        ensures kept { self.new ≡ self.old }
    {
        MemDisk::of_node(self.alloc, node, which, cuts)
    }

    fn oracle(&mut self, node: u8, seed: u64) -> MemOracle
        ensures its_own { result ≡ unasked (record { node = node; seed = seed }) }
        ensures kept { self.new ≡ self.old }
    {
        MemOracle::new(node, seed)
    }

    /// The outlet of a node that fails at the calls, as `MemOutlet::new` makes it.
    fn outlet(&mut self, node: u8, fails: &[u64]) -> Result<MemOutlet, AllocError>
        ensures untaken { IfOk result (λ o. o ≡ untaken node o.fails) }
        ensures fails { IfOk result (λ o. (call : ℕ) → Contains o.fails call ↔ Contains fails.now call) }
        ensures kept { self.new ≡ self.old }
    {
        MemOutlet::new(self.alloc, node, fails)
    }

    fn keep(&mut self, node: u8, disks: Disks<MemDisk>, luck: MemOracle, out: MemOutlet)
        requires { node < MAX_NODES }
        ensures given { slice_index_or self.new.kept node None ≡ Some (record { disks = disks; luck = luck; out = out }) }
        ensures others { (v : ℕ) → v ≢ node → slice_index_or self.new.kept v None ≡ slice_index_or self.old.kept v None }
        ensures files { self.new.files ≡ self.old.files }
    {
        self.kept[usize::from(node)] = Some(Kept { disks, luck, out });
    }

    ghost apart = { λ a b same v. ap (λ rest. option_map (λ k. (k.disks, k.luck, k.out)) (slice_index_or rest.0 v None)) same };
}
