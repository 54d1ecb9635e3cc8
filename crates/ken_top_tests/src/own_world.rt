// A run over a world of one's own, which fails as it likes.
ghost use Rattle.std.specs.Prelude.{None, slice_index_or};
ghost use Rattle.ken_drive.specs.Worlds.{HasKeptNothing};

use crate::calls::run_over;
use ken_app::Oracle;
use ken_disk::{Disk, DiskFault, MAX_LEN};
use ken_drive::World;
use ken_files::{Files, OpenFault};
use ken_memdisk::{Cut, MemDisk};
use ken_model::MAX_NODES;
use ken_ship::{OutFault, Outlet};
use ken_store::Disks;
use ken_top::Status;
use std::alloc::{AllocError, Global};
use std::test::Fail;

const NODES: usize = MAX_NODES as usize;

// Three nodes pass a count of 2 on, from node 0.
const THREE_NODES: &str = "{\"nodes\":3,\"kind\":\"ring\",\"inputs\":[[0,\"2\"]]}";

const THREE_NODES_REPORT: &str = "\
turn 1 0 out 1 -
turn 2 1 0 1 -
turn 3 2 1 1 -
emit 0 1 2
emit 1 1 1
emit 2 1 0
heap 0 1
heap 1 1
heap 2 1
end settled 3
";

// A disk that doesn't tell when it fails.
#[derive(Drop)]
struct OwnDisk {
    inner: MemDisk,
}

impl Disk for OwnDisk {
    ghost use Rattle.std.specs.Prelude.{◌≡◌, length, true, Some, None};
    ghost use Rattle.std.proofs.Common.{ap};
    ghost use Rattle.std.specs.Option.{unwrap_or};

    ghost told = { λ d. Some d.inner.held.story };

    ghost size = { λ d. length d.inner.held.story.now.seen };

    ghost fate = { λ d. None };

    ghost faults = { λ d. d.inner.calls.faults };

    ghost ready = { λ d. d.inner.held.ready ≡ true };

    ghost hinted = { λ d. d.inner.calls.hint };

    ghost sized = { λ d h told. ap (λ o. length (unwrap_or o h).now.seen) told };

    fn len(&self) -> u64 {
        self.inner.len()
    }

    fn read(&mut self, at: u64, buf: &mut [u8]) -> Result<(), DiskFault> {
        self.inner.read(at, buf)
    }

    fn write(&mut self, at: u64, bytes: &[u8]) -> Result<(), DiskFault> {
        self.inner.write(at, bytes)
    }

    fn sync(&mut self) -> Result<(), DiskFault> {
        self.inner.sync()
    }

    fn restart(&mut self, pick: u64) -> Result<(), AllocError> {
        self.inner.restart(pick)
    }

    fn hint(&self) -> u64 {
        self.inner.hint()
    }
}

// An oracle whose clock stands, and whose words are all the same. It tells nothing.
#[derive(Drop)]
struct OwnLuck {
    reading: u64,
    word: u64,
}

impl Oracle for OwnLuck {
    ghost use Rattle.std.specs.Prelude.{None, false};

    ghost telling = { record { clocks = λ o. None; words = λ o. None; answers = λ o. None; origin = λ o. None; always = false } };

    fn clock(&mut self) -> u64 {
        self.reading
    }

    fn word(&mut self) -> u64 {
        self.word
    }
}

// An outlet that refuses as many calls as it has refusals left. It tells nothing but how often it has failed.
#[derive(Drop)]
struct OwnOut {
    refusals: u64,
    faults: u64,
}

impl Outlet for OwnOut {
    ghost use Rattle.std.specs.Prelude.{None};

    ghost took = { λ o. None };

    ghost fate = { λ o. None };

    ghost faults = { λ o. o.faults };

    fn emit(&mut self, _number: u64, _text: &[u8]) -> Result<(), OutFault> {
        if self.refusals == 0 {
            return Ok(());
        }
        self.refusals -= 1;
        self.faults = self.faults.saturating_add(1);
        Err(OutFault::Failed)
    }
}

// What such a world keeps of a node.
#[derive(Drop)]
struct OwnKept {
    disks: Disks<OwnDisk>,
    luck: OwnLuck,
    out: OwnOut,
}

// A world that pays no heed to what a script lets fail: all its logs fail at the cuts of the world, its outlets refuse
// their first calls, and none of its files can be opened.
#[derive(Drop)]
struct OwnWorld {
    alloc: Global,
    cuts: Vec<Cut>,
    refusals: u64,
    openings: u64,
    kept: [Option<OwnKept>; NODES],
}

impl OwnWorld {
    fn new(alloc: Global, cuts: Vec<Cut>, refusals: u64) -> Self
        ensures { HasKeptNothing (λ v. slice_index_or result.kept v None) }
    {
        OwnWorld {
            alloc,
            cuts,
            refusals,
            openings: 0,
            kept: [None, None, None, None, None, None, None, None],
        }
    }

    // Of which nodes it has kept devices.
    fn kept_of(&self, alloc: Global) -> Result<Vec<usize>, AllocError> {
        let mut nodes = Vec::new(alloc);
        for node in 0..NODES {
            if self.kept[node].is_some() {
                nodes.push(node)?;
            }
        }
        Ok(nodes)
    }
}

impl Files for OwnWorld {
    ghost use Rattle.std.specs.Prelude.{List, Option, None, false, true};
    ghost use Rattle.ken_top_tests.specs.declared.own_world.OwnKept.{OwnKept};

    type File = OwnDisk;

    ghost Rest = { List (Option OwnKept) };

    ghost filing = { λ w. record { put = λ p. None; bytes = λ p. None; failures = w.openings; room = λ p. true } };

    ghost tells = { false };

    ghost rest = { λ w. w.kept };

    fn found(&mut self, _path: &str, _fresh: bool) -> Result<OwnDisk, OpenFault> {
        self.openings = self.openings.saturating_add(1);
        Err(OpenFault::Failed)
    }

    fn put_back(&mut self, _path: &str, _file: OwnDisk) {}
}

impl World for OwnWorld {
    ghost use Rattle.std.specs.Prelude.{◌≡◌, ◌≢◌, ◌<◌, ℕ, slice_index_or, false, None, Some};
    ghost use Rattle.std.specs.Option.{option_map};
    ghost use Rattle.std.proofs.Common.{ap};
    ghost use Rattle.ken_model.specs.declared.facts.TheConstants.{MAX_NODES};

    type Dev = OwnDisk;

    type Luck = OwnLuck;

    type Out = OwnOut;

    ghost kept = { λ w v. option_map (λ k. (k.disks, k.luck, k.out)) (slice_index_or w.kept v None) };

    ghost scripted = { false };

    fn disk(&mut self, _node: u8, which: u8, _cuts: &[Cut]) -> Result<OwnDisk, AllocError> {
        let cuts: &[Cut] = if which == 0 {
            self.cuts.as_slice()
        } else {
            &[]
        };
        Ok(OwnDisk {
            inner: MemDisk::new(self.alloc, cuts)?,
        })
    }

    fn oracle(&mut self, node: u8, seed: u64) -> OwnLuck {
        OwnLuck {
            reading: seed,
            word: u64::from(node).wrapping_add(1000),
        }
    }

    fn outlet(&mut self, _node: u8, _fails: &[u64]) -> Result<OwnOut, AllocError> {
        Ok(OwnOut {
            refusals: self.refusals,
            faults: 0,
        })
    }

    fn keep(&mut self, node: u8, disks: Disks<OwnDisk>, luck: OwnLuck, out: OwnOut)
        requires { node < MAX_NODES }
        ensures given { slice_index_or self.new.kept node None ≡ Some (record { disks = disks; luck = luck; out = out }) }
        ensures others { (v : ℕ) → v ≢ node → slice_index_or self.new.kept v None ≡ slice_index_or self.old.kept v None }
        ensures files { self.new.openings ≡ self.old.openings }
    {
        self.kept[usize::from(node)] = Some(OwnKept { disks, luck, out });
    }

    ghost apart = { λ a b same v. ap (λ kept. option_map (λ k. (k.disks, k.luck, k.out)) (slice_index_or kept v None)) same };
}

// Cuts of so many calls of a disk from one on, after which only what was synced is left.
fn cuts(alloc: Global, first: u64, count: u64) -> Result<Vec<Cut>, AllocError> {
    let mut cuts = Vec::new(alloc);
    for later in 0..count {
        cuts.push(Cut {
            call: first.wrapping_add(later),
            pick: 1,
        })?;
    }
    Ok(cuts)
}

struct Row {
    // The words behind the program's name.
    words: &'static [&'static str],
    script: &'static str,
    // The first call at which each log fails, and how many fail.
    cuts: (u64, u64),
    // How many calls each outlet refuses.
    refusals: u64,
    status: Status,
    report: &'static str,
    // Of how many nodes devices are kept.
    kept: usize,
}

const ROWS: [Row; 8] = [
    Row {
        words: &["run"],
        script: THREE_NODES,
        cuts: (0, 0),
        refusals: 0,
        status: Status::Settled,
        report: THREE_NODES_REPORT,
        kept: 3,
    },
    // What the script lets fail doesn't.
    Row {
        words: &["run"],
        script: "{\"nodes\":3,\"kind\":\"ring\",\"inputs\":[[0,\"2\"]],\"cuts\":[[0,0,9,0]],\"outlets\":[[0,1]]}",
        cuts: (0, 0),
        refusals: 0,
        status: Status::Settled,
        report: THREE_NODES_REPORT,
        kept: 3,
    },
    // The first seal of each node is lost.
    Row {
        words: &["run"],
        script: THREE_NODES,
        cuts: (9, 1),
        refusals: 0,
        status: Status::Settled,
        report: "\
            turn 1 0 out 1 -\nturn 2 1 0 1 -\nturn 3 2 1 1 -\nemit 0 1 2\nemit 1 1 1\nemit 2 1 0\nrestart 0 at 0\n\
            restart 1 at 0\nrestart 2 at 0\nheap 0 1\nheap 1 1\nheap 2 1\nend settled 3\n",
        kept: 3,
    },
    // Clocks that stand at 7, and the words 1000 and 1001.
    Row {
        words: &["run"],
        script: "{\"nodes\":2,\"kind\":\"mix\",\"seed\":7,\"inputs\":[[1,\"2\"]]}",
        cuts: (0, 0),
        refusals: 0,
        status: Status::Settled,
        report: "\
            turn 1 1 out 1 7,1001\nturn 2 1 1 1 7,1001\nturn 3 1 1 2 7,1001\nemit 1 1 1\nemit 1 2 1\nemit 1 3 1\n\
            heap 0 0\nheap 1 7\nend settled 3\n",
        kept: 2,
    },
    // 64 refusals of an output are borne.
    Row {
        words: &["run"],
        script: "{\"nodes\":1,\"kind\":\"ring\",\"inputs\":[[0,\"1\"]]}",
        cuts: (0, 0),
        refusals: 64,
        status: Status::Settled,
        report: "turn 1 0 out 1 -\nturn 2 0 0 1 -\nemit 0 1 1\nemit 0 2 0\nheap 0 2\nend settled 2\n",
        kept: 1,
    },
    // A node goes down though no script lets it: its outlet refuses once more,
    Row {
        words: &["run"],
        script: THREE_NODES,
        cuts: (0, 0),
        refusals: 65,
        status: Status::Down { node: 0 },
        report: "",
        kept: 3,
    },
    // or its log fails once more than the node may be restarted, while it is created.
    Row {
        words: &["run"],
        script: THREE_NODES,
        cuts: (1, 65),
        refusals: 0,
        status: Status::Down { node: 0 },
        report: "",
        kept: 1,
    },
    // The first file can't be opened, and the devices are kept.
    Row {
        words: &["save", "d"],
        script: THREE_NODES,
        cuts: (0, 0),
        refusals: 0,
        status: Status::Open { node: 0, disk: 0 },
        report: "",
        kept: 3,
    },
];

#[test]
fn a_world_of_ones_own_is_run_over(rt: HostRuntime) -> Result<(), Fail> {
    let alloc = rt.alloc();
    for row in &ROWS {
        let (first, count) = row.cuts;
        let mut world = OwnWorld::new(alloc, cuts(alloc, first, count)?, row.refusals);
        let called = run_over(&rt, alloc, row.words, row.script, &mut world)?;
        assert_eq!(rt;
            (called.ending()?, world.kept_of(alloc)?.len()),
            ((row.status, row.report), row.kept),
            "{}",
            row.script
        );
    }
    Ok(())
}
