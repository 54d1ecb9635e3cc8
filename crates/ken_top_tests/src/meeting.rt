// That the handlers of two nodes are at work at one time.
ghost use Rattle.std.specs.Prelude.{None, slice_index_or, IfOk};
ghost use Rattle.ken_drive.specs.Worlds.{HasKeptNothing};

use crate::calls::run_over;
use ken_app::Oracle;
use ken_drive::{MemOutlet, World};
use ken_files::{Files, OpenFault};
use ken_memdisk::{Cut, MemDisk};
use ken_model::MAX_NODES;
use ken_store::Disks;
use ken_top::Status;
use std::alloc::{AllocError, Global};
use std::sync::Arc;
use std::sync::atomic::{AtomicU64, Ordering};
use std::test::Fail;
use std::thread;

const NODES: usize = MAX_NODES as usize;

// How often two handlers meet, and how often one looks whether the other has come.
const RUNS: u64 = 100;

const LOOKS: u64 = 1_000_000;

const MIX: &str = "{\"nodes\":2,\"kind\":\"mix\",\"inputs\":[[0,\"0\"],[1,\"0\"]],\"rounds\":1}";

// Which of two handlers have come, and which have seen the other.
#[derive(Drop)]
struct Place {
    first_came: AtomicU64,
    second_came: AtomicU64,
    first_saw: AtomicU64,
    second_saw: AtomicU64,
}

impl Place {
    fn new() -> Self {
        Place {
            first_came: AtomicU64::new(0),
            second_came: AtomicU64::new(0),
            first_saw: AtomicU64::new(0),
            second_saw: AtomicU64::new(0),
        }
    }

    // A node's handler comes, and looks for the other's.
    fn come(&self, node: u8) {
        if node == 0 {
            look(&self.first_came, &self.second_came, &self.first_saw);
        } else {
            look(&self.second_came, &self.first_came, &self.second_saw);
        }
    }

    // How many have seen the other.
    fn seen(&self) -> u64 {
        let first = self.first_saw.load(Ordering::SeqCst);
        first.saturating_add(self.second_saw.load(Ordering::SeqCst))
    }
}

// Sets a flag, and looks for another's so often.
fn look(own: &AtomicU64, other: &AtomicU64, saw: &AtomicU64) {
    own.store(1, Ordering::SeqCst);
    for _look in 0..LOOKS {
        if other.load(Ordering::SeqCst) == 1 {
            saw.store(1, Ordering::SeqCst);
            return;
        }
        thread::yield_now();
    }
}

// An oracle whose first reading of the clock comes to the place. It tells nothing.
#[derive(Drop)]
struct MeetingLuck {
    node: u8,
    place: Option<Arc<Place, Global>>,
}

impl Oracle for MeetingLuck {
    ghost use Rattle.std.specs.Prelude.{None, false};

    ghost telling = { record { clocks = λ o. None; words = λ o. None; answers = λ o. None; origin = λ o. None; always = false } };

    fn clock(&mut self) -> u64 {
        if let Some(place) = self.place.take() {
            place.come(self.node);
        }
        1
    }

    fn word(&mut self) -> u64 {
        0
    }
}

// What the world keeps of a node.
#[derive(Drop)]
struct MeetingKept {
    disks: Disks<MemDisk>,
    luck: MeetingLuck,
    out: MemOutlet,
}

// A world in memory where nothing fails, and whose oracles meet.
#[derive(Drop)]
struct MeetingWorld {
    alloc: Global,
    first: Option<Arc<Place, Global>>,
    second: Option<Arc<Place, Global>>,
    kept: [Option<MeetingKept>; NODES],
}

impl MeetingWorld {
    fn new(alloc: Global, place: &Arc<Place, Global>) -> Result<Self, AllocError>
        ensures { IfOk result (λ w. HasKeptNothing (λ v. slice_index_or w.kept v None)) }
    {
        Ok(MeetingWorld {
            alloc,
            first: Some(Arc::try_clone(place)?),
            second: Some(Arc::try_clone(place)?),
            kept: [None, None, None, None, None, None, None, None],
        })
    }
}

// There are no files, and no memory for one.
impl Files for MeetingWorld {
    ghost use Rattle.std.specs.Prelude.{List, Option, None, false, true};
    ghost use Rattle.ken_top_tests.specs.declared.meeting.MeetingKept.{MeetingKept};

    type File = MemDisk;

    ghost Rest = { List (Option MeetingKept) };

    ghost filing = { λ w. record { put = λ p. None; bytes = λ p. None; failures = 0; room = λ p. true } };

    ghost tells = { false };

    ghost rest = { λ w. w.kept };

    fn found(&mut self, _path: &str, _fresh: bool) -> Result<MemDisk, OpenFault> {
        Err(OpenFault::Memory)
    }

    fn put_back(&mut self, _path: &str, _file: MemDisk) {}
}

impl World for MeetingWorld {
    ghost use Rattle.std.specs.Prelude.{◌≡◌, ◌≢◌, ◌<◌, ℕ, slice_index_or, false, None, Some};
    ghost use Rattle.std.specs.Option.{option_map};
    ghost use Rattle.std.proofs.Common.{ap};
    ghost use Rattle.ken_model.specs.declared.facts.TheConstants.{MAX_NODES};

    type Dev = MemDisk;

    type Luck = MeetingLuck;

    type Out = MemOutlet;

    ghost kept = { λ w v. option_map (λ k. (k.disks, k.luck, k.out)) (slice_index_or w.kept v None) };

    ghost scripted = { false };

    fn disk(&mut self, node: u8, which: u8, cuts: &[Cut]) -> Result<MemDisk, AllocError> {
        MemDisk::of_node(self.alloc, node, which, cuts)
    }

    fn oracle(&mut self, node: u8, _seed: u64) -> MeetingLuck {
        let place = if node == 0 {
            self.first.take()
        } else {
            self.second.take()
        };
        MeetingLuck { node, place }
    }

    fn outlet(&mut self, node: u8, fails: &[u64]) -> Result<MemOutlet, AllocError> {
        MemOutlet::new(self.alloc, node, fails)
    }

    fn keep(&mut self, node: u8, disks: Disks<MemDisk>, luck: MeetingLuck, out: MemOutlet)
        requires { node < MAX_NODES }
        ensures given { slice_index_or self.new.kept node None ≡ Some (record { disks = disks; luck = luck; out = out }) }
        ensures others { (v : ℕ) → v ≢ node → slice_index_or self.new.kept v None ≡ slice_index_or self.old.kept v None }
    {
        self.kept[usize::from(node)] = Some(MeetingKept { disks, luck, out });
    }

    ghost apart = { λ a b same v. ap (λ kept. option_map (λ k. (k.disks, k.luck, k.out)) (slice_index_or kept v None)) same };
}

#[test]
fn handlers_of_two_nodes_meet(rt: HostRuntime) -> Result<(), Fail> {
    let alloc = rt.alloc();
    for run in 1..=RUNS {
        let place = Arc::new(alloc, Place::new())?;
        let mut world = MeetingWorld::new(alloc, &place)?;
        let called = run_over(&rt, alloc, &["run"], MIX, &mut world)?;
        assert_eq!(rt;
            (called.status, place.seen()),
            (Status::Settled, 2),
            "run {run}"
        );
    }
    Ok(())
}
