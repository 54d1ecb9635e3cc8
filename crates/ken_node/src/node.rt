// A node as a whole.
ghost use Rattle.std.specs.Prelude.{◌≡◌};
ghost use Rattle.ken_node.specs.declared.stage.Stage.TheVariants.{Moved};

use crate::stage::Stage;
use crate::watched::Watched;
use ken_disk::Disk;
use ken_model::{Emission, Facts, Value};
use ken_record::Effects;
use ken_ship::{NodeFault, SendWorker};
use ken_store::Disks;
use ken_work::{Parts, PatchWorker, TurnWorker};
use std::alloc::{AllocError, Global};
use std::mem;

/// A node: its three workers, or the disks of one that isn't created yet.
#[derive(Drop)]
pub struct Node<D> {
    pub(crate) stage: Stage<D>,
    ghost here: { stage ≡ Moved → ⊥ },
}

impl<D: Disk> Node<D> {
    ghost use Rattle.std.specs.Prelude.{◌≡◌, ◌<◌, ℕ, IfOk, IfErr};
    ghost use Rattle.ken_model.specs.Game.{Game, game_of};
    ghost use Rattle.ken_model.specs.Limits.{IsWithinLimits};
    ghost use Rattle.ken_node.specs.Created.{IsCreation};
    ghost use Rattle.ken_node.specs.Down.{AreTold};
    ghost use Rattle.ken_work.specs.Faults.{IsFaultOfWorker};
    ghost use Rattle.ken_node.specs.Clauses.{ComesUp, KeepsSynced, RestartsDisks, StaysDown};
    ghost use Rattle.ken_node.specs.Stages.{HasDisks, HasValue, IsCreated, IsUncreated, MayBeCreated, emissions_in, turns_in};
    ghost use Rattle.ken_node.specs.Synced.{IsSynced};

    /// A node of a run that isn't created yet. Its disks may be any, and see no call. The error, which is want of memory, hands
    /// them back.
    pub fn new(
        alloc: Global,
        disks: Disks<D>,
        node: u8,
        facts: &Facts,
    ) -> Result<Node<D>, (AllocError, Disks<D>)>
        requires limits { IsWithinLimits (game_of facts.now) }
        requires known { node < facts.now.nodes }
        ensures ok { IfOk result (λ n. IsUncreated (game_of facts.now) node disks n.stage) }
        ensures err { IfErr result (λ e. e.1 ≡ disks) }
    {
        match Parts::new(alloc, node, facts) {
            Ok(parts) => Ok(Node {
                stage: Stage::Uncreated(disks, parts),
            }),
            Err(refused) => Err((refused, disks)),
        }
    }

    /// Creates the node on its disks, which have no log: the image first, and then the log. At any moment of the call a crash
    /// leaves disks on which nothing is found, or a node that made no turn. The errors are `Disk` and `Memory`: the node isn't
    /// created then and has its disks still, and a restart tells which of the two they have.
    pub fn create(&mut self) -> Result<(), NodeFault>
        requires { MayBeCreated D.told self.old.stage }
        ensures creation { (g : Game) (v : ℕ) (disks : Disks D) → IsUncreated g v disks self.old.stage → IsCreation D.told D.size D.faults D.fate g v result disks self.new.stage }
        ensures synced { (g : Game) (v : ℕ) (disks : Disks D) → IsUncreated g v disks self.old.stage → AreTold D.told disks → IsSynced D.told D.faults g v self.new.stage }
        ensures sound { IsFaultOfWorker result }
    {
        let (stage, result) = mem::replace(&mut self.stage, Stage::Moved).created();
        match mem::replace(&mut self.stage, stage) {
            Stage::Moved => result,
            Stage::Uncreated(..) | Stage::Created(..) => unreachable!(),
        }
    }

    /// Its workers, each to be called on its own.
    pub fn split(self) -> (TurnWorker<D>, PatchWorker<D>, SendWorker)
        requires { IsCreated self.stage }
        ensures { self.stage ≡ Stage.Created result.0 result.1 result.2 }
    {
        let Node { stage } = self;
        match stage {
            Stage::Created(turns, patches, sends) => (turns, patches, sends),
            Stage::Uncreated(..) | Stage::Moved => unreachable!(),
        }
    }

    /// One node of three workers.
    pub fn join(turns: TurnWorker<D>, patches: PatchWorker<D>, sends: SendWorker) -> Node<D>
        ensures { result.stage ≡ Stage.Created turns patches sends }
    {
        Node {
            stage: Stage::Created(turns, patches, sends),
        }
    }

    /// Gives the disks back as they are.
    pub fn release(self) -> Disks<D>
        ensures { HasDisks result self.stage }
    {
        let Node { stage } = self;
        match stage {
            Stage::Uncreated(disks, _) => disks,
            Stage::Created(turns, patches, sends) => Parts::of(turns, patches, sends).0,
            Stage::Moved => unreachable!(),
        }
    }

    /// All its sealed turns, oldest first.
    pub fn turns(&self) -> &[Effects]
        ensures { result.now ≡ turns_in self.now.stage }
    {
        match &self.stage {
            Stage::Uncreated(_, parts) => parts.turns.as_slice(),
            Stage::Created(turns, _, _) => turns.turns(),
            Stage::Moved => unreachable!(),
        }
    }

    /// All that it emitted since it was made, oldest first.
    pub fn emissions(&self) -> &[Emission]
        ensures { result.now ≡ emissions_in self.now.stage }
    {
        match &self.stage {
            Stage::Uncreated(_, parts) => parts.sends.emissions(),
            Stage::Created(_, _, sends) => sends.emissions(),
            Stage::Moved => unreachable!(),
        }
    }

    /// A copy of the value that its heap stands for.
    pub fn value(&self, alloc: Global) -> Result<Value, AllocError>
        requires { IsCreated self.now.stage }
        ensures { IfOk result (λ value. HasValue value self.now.stage) }
    {
        match &self.stage {
            Stage::Created(turns, _, _) => turns.side.value(alloc),
            Stage::Uncreated(..) | Stage::Moved => unreachable!(),
        }
    }
}

impl<D: Disk> Node<Watched<D>> {
    ghost use Rattle.std.specs.Prelude.{◌≡◌};
    ghost use Rattle.ken_node.specs.Clauses.{ComesUp, KeepsSynced, RestartsDisks, StaysDown};
    ghost use Rattle.ken_node.specs.Down.{MayRestart};
    ghost use Rattle.ken_work.specs.Faults.{IsFaultOfWorker};
    ghost use Rattle.ken_work.specs.Parts.{CountsAnew};
    ghost use Rattle.ken_node.specs.Stages.{emissions_in, refusals_in};

    /// Restarts the node: its workers meet, all its disks are restarted, and the node goes on with what they hold then. It
    /// answers how many turns it made. The pick for the disks is what the lowest of them proposes that has failed since it was last
    /// restarted: the log, the image, the second log; or else 0. Where no log is on them the node is created. What it emitted is
    /// kept. The errors are `Disk` and `Memory`: the node may be restarted again then, and no other call may follow.
    pub fn restart(&mut self) -> Result<u64, NodeFault>
        requires { MayRestart ⟦<Watched<D> as Disk>⟧.told self.old.stage }
        ensures up { ComesUp ⟦<Watched<D> as Disk>⟧.told ⟦<Watched<D> as Disk>⟧.size self.old.stage result self.new.stage }
        ensures down { StaysDown ⟦<Watched<D> as Disk>⟧.told self.old.stage result self.new.stage }
        ensures synced { KeepsSynced ⟦<Watched<D> as Disk>⟧.told ⟦<Watched<D> as Disk>⟧.faults self.old.stage self.new.stage }
        ensures sound { IsFaultOfWorker result }
        ensures emissions { emissions_in self.new.stage ≡ emissions_in self.old.stage }
        ensures refusals { CountsAnew result (refusals_in self.old.stage) (refusals_in self.new.stage) }
        ensures disks { RestartsDisks ⟦<Watched<D> as Disk>⟧.told ⟦<Watched<D> as Disk>⟧.faults ⟦<Watched<D> as Disk>⟧.fate ⟦<Watched<D> as Disk>⟧.hinted
            self.old.stage result self.new.stage }
    {
        let (stage, result) = mem::replace(&mut self.stage, Stage::Moved).restarted();
        match mem::replace(&mut self.stage, stage) {
            Stage::Moved => result,
            Stage::Uncreated(..) | Stage::Created(..) => unreachable!(),
        }
    }
}
