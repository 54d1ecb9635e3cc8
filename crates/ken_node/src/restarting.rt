// A node is restarted on its disks.
ghost use Rattle.std.specs.Prelude.{◌≡◌, ◌≤◌, ℕ, List, length, vec_capacity, vec_len, IfOk, IfErr, OnOk, OnErr};
ghost use Rattle.std.specs.List.{All};
ghost use Rattle.ken_model.specs.Game.{Game};
ghost use Rattle.ken_model.specs.Limits.{IsWithinLimits};
ghost use Rattle.ken_core.specs.Calls.{Doubt};
ghost use Rattle.ken_core.specs.Nodes.{Node as Stood};
ghost use Rattle.ken_core.specs.Packets.{Packet};
ghost use Rattle.ken_store.specs.declared.disks.Disks.{Disks as Has};
ghost use Rattle.ken_store.specs.Answers.{AreAtRest, disks_in};
ghost use Rattle.ken_store.specs.Apart.{disks_apart};
ghost use Rattle.ken_node.specs.Clauses.{ComesUp, KeepsDisksSynced, KeepsSynced, RestartsDisks, StaysDown};
ghost use Rattle.ken_ship.specs.Fits.{IsMailFrom};
ghost use Rattle.ken_ship.specs.Parts.{part_of};
ghost use Rattle.ken_node.specs.Down.{AreReady, AreTold, IsDown, IsOfNode, MayRestart};
ghost use Rattle.ken_work.specs.Faults.{IsFaultOfWorker};
ghost use Rattle.ken_work.specs.Meeting.{AreJoined};
ghost use Rattle.ken_work.specs.News.{AreInputs};
ghost use Rattle.ken_work.specs.Parts.{CountsAnew};
ghost use Rattle.ken_node.specs.Restarting.{GoesOn, HaveCounts, IsCreatedAnew, IsPutBack, LeaveLess, RecoversBy, none_made, stage_of};
ghost use Rattle.ken_node.specs.Restarts.{RestartsBy, WereRestarted, pick_of};
ghost use Rattle.ken_node.specs.Stages.{HasDisks, IsUncreated, MayBeCreated, disk_owner, emissions_in, owner_in, refusals_in, turns_in};
ghost use Rattle.ken_node.specs.Synced.{IsSynced, KeepSyncs};
ghost use Rattle.ken_whole.specs.Whole.{AreOfRun};

use crate::stage::Stage;
use crate::watched::Watched;
use ken_disk::Disk;
use ken_model::State;
use ken_order::Order;
use ken_record::Record;
use ken_ship::{NodeFault, SendWorker};
use ken_store::{Disks, Recovered, Store, recover};
use ken_work::{Parts, PatchWorker, TurnWorker, answered, meet};
use std::alloc::AllocError;

// The pick that the lowest disk proposes which has failed since that disk's last restart that answered Ok, or 0.
fn pick_of<D: Disk>(disks: &Disks<Watched<D>>) -> u64
    ensures { result ≡ pick_of ⟦<Watched<D> as Disk>⟧.hinted disks.now }
{
    if disks.log.has_failed() {
        disks.log.hint()
    } else if disks.image.has_failed() {
        disks.image.hint()
    } else if disks.second.has_failed() {
        disks.second.hint()
    } else {
        0
    }
}

impl<D: Disk> Stage<Watched<D>> {
    // Restarts the node. After an error it isn't created, or is as it was, and may be restarted again.
    pub(crate) fn restarted(self) -> (Stage<Watched<D>>, Result<u64, NodeFault>)
        requires { MayRestart ⟦<Watched<D> as Disk>⟧.told self }
        ensures up { ComesUp ⟦<Watched<D> as Disk>⟧.told ⟦<Watched<D> as Disk>⟧.size self result.1 result.0 }
        ensures down { StaysDown ⟦<Watched<D> as Disk>⟧.told self result.1 result.0 }
        ensures synced { KeepsSynced ⟦<Watched<D> as Disk>⟧.told ⟦<Watched<D> as Disk>⟧.faults self result.0 }
        ensures here { result.0 ≡ Stage.Moved → ⊥ }
        ensures sound { IsFaultOfWorker result.1 }
        ensures emissions { emissions_in result.0 ≡ emissions_in self }
        ensures refusals { CountsAnew result.1 (refusals_in self) (refusals_in result.0) }
        ensures disks { RestartsDisks ⟦<Watched<D> as Disk>⟧.told ⟦<Watched<D> as Disk>⟧.faults ⟦<Watched<D> as Disk>⟧.fate ⟦<Watched<D> as Disk>⟧.hinted
            self result.1 result.0 }
    {
        match self.taken_apart() {
            Ok((disks, parts)) => {
                let pick = pick_of(&disks);
                up_again(disks, parts, pick)
            }
            Err(stage) => (stage, Err(NodeFault::Memory)),
        }
    }
}

impl<D: Disk> Stage<D> {
    // The disks and what else the node is made of, after its workers met. The error, which is want of memory, is a node that
    // may be restarted still.
    fn taken_apart(self) -> Result<(Disks<D>, Parts), Stage<D>>
        requires { MayRestart D.told self }
        ensures down { (g : Game) (v : ℕ) (given : List Packet) (n : Stood) (doubt : Doubt) → IsDown D.told g v given n doubt self → IsDown D.told g v given n doubt (stage_of result) }
        ensures emissions { emissions_in (stage_of result) ≡ emissions_in self }
        ensures refusals { refusals_in (stage_of result) ≡ refusals_in self }
        ensures disks { (old : Has D) → HasDisks old self → HasDisks old (stage_of result) }
        ensures owner { disk_owner (stage_of result) ≡ disk_owner self }
    {
        match self {
            Stage::Uncreated(disks, parts) => Ok((disks, parts)),
            Stage::Created(turns, patches, sends) => parted(turns, patches, sends),
            Stage::Moved => unreachable!(),
        }
    }
}

// The disks of workers that meet, and what else they are made of; or the workers, where memory ran out.
fn parted<D: Disk>(
    mut turns: TurnWorker<D>,
    mut patches: PatchWorker<D>,
    mut sends: SendWorker,
) -> Result<(Disks<D>, Parts), Stage<D>>
    requires { AreJoined turns patches sends }
    ensures of_node { (g : Game) (v : ℕ) → IsWithinLimits g → AreOfRun g v turns sends → IsOfNode g v (stage_of result) }
    ensures turns { turns_in (stage_of result) ≡ turns.turns.items }
    ensures emissions { emissions_in (stage_of result) ≡ (part_of sends).emissions }
    ensures refusals { refusals_in (stage_of result) ≡ (part_of sends).refusals }
    ensures disks { HasDisks (disks_apart turns.side patches.side) (stage_of result) }
    ensures owner { disk_owner (stage_of result) ≡ disk_owner (Stage.Created turns patches sends) }
{
    match meet(&mut turns, &mut patches, &mut sends) {
        Ok(()) => Ok(Parts::of(turns, patches, sends)),
        Err(_) => Err(Stage::Created(turns, patches, sends)),
    }
}

// Restarts each disk of a node. After an error, which is want of memory, some of them were restarted.
fn restart_all<D: Disk>(disks: &mut Disks<D>, pick: u64) -> Result<(), AllocError>
    ensures ok { OnOk result (WereRestarted D.told D.faults D.fate pick disks.old disks.new) }
    ensures leave { LeaveLess D.told disks.old disks.new }
    ensures counts { HaveCounts D.faults disks.old disks.new }
    ensures syncs { KeepSyncs D.told disks.old disks.new }
{
    disks.log.restart(pick)?;
    disks.image.restart(pick)?;
    disks.second.restart(pick)
}

// Restarts the disks of a node, which goes on from what they hold then.
fn up_again<D: Disk>(
    mut disks: Disks<D>,
    parts: Parts,
    pick: u64,
) -> (Stage<D>, Result<u64, NodeFault>)
    requires { MayRestart D.told (Stage.Uncreated disks parts) }
    ensures up { ComesUp D.told D.size (Stage.Uncreated disks parts) result.1 result.0 }
    ensures down { StaysDown D.told (Stage.Uncreated disks parts) result.1 result.0 }
    ensures synced { KeepsDisksSynced D.told D.faults (Stage.Uncreated disks parts) disks result.0 }
    ensures here { result.0 ≡ Stage.Moved → ⊥ }
    ensures sound { IsFaultOfWorker result.1 }
    ensures emissions { emissions_in result.0 ≡ (part_of parts.sends).emissions }
    ensures refusals { CountsAnew result.1 (part_of parts.sends).refusals (refusals_in result.0) }
    ensures disks { (new : Has D) → HasDisks new result.0 → RestartsBy D.told D.faults D.fate (owner_in parts) pick result.1 disks new }
{
    match restart_all(&mut disks, pick) {
        Ok(()) => recovered(disks, parts),
        Err(_) => (Stage::Uncreated(disks, parts), Err(NodeFault::Memory)),
    }
}

// Recovers a node from its disks, on which nothing is pending. Where there is no log it is created.
fn recovered<D: Disk>(disks: Disks<D>, parts: Parts) -> (Stage<D>, Result<u64, NodeFault>)
    requires rests { AreAtRest D.told disks }
    requires down { MayRestart D.told (Stage.Uncreated disks parts) }
    ensures up { ComesUp D.told D.size (Stage.Uncreated disks parts) result.1 result.0 }
    ensures down { StaysDown D.told (Stage.Uncreated disks parts) result.1 result.0 }
    ensures synced { KeepsDisksSynced D.told D.faults (Stage.Uncreated disks parts) disks result.0 }
    ensures here { result.0 ≡ Stage.Moved → ⊥ }
    ensures sound { IsFaultOfWorker result.1 }
    ensures emissions { emissions_in result.0 ≡ (part_of parts.sends).emissions }
    ensures refusals { CountsAnew result.1 (part_of parts.sends).refusals (refusals_in result.0) }
    ensures disks { (new : Has D) → HasDisks new result.0 → RecoversBy D.told D.faults D.fate (owner_in parts) result.1 disks new }
{
    match recover(parts.alloc, disks, parts.node, parts.nodes, parts.size) {
        Ok(Recovered::Fresh(disks)) => created_anew(Stage::Uncreated(disks, parts)),
        Ok(Recovered::Whole(store, state, records)) => {
            gone_on(store, &state, records.as_slice(), parts)
        }
        Err((fault, disks)) => (Stage::Uncreated(disks, parts), answered(Err(fault))),
    }
}

// The answer of a creation, as how many turns the node made.
fn none_made(answer: Result<(), NodeFault>) -> Result<u64, NodeFault>
    ensures { result ≡ none_made answer }
{
    match answer {
        Ok(()) => Ok(0),
        Err(fault) => Err(fault),
    }
}

// Creates a node on whose disks nothing was found: it made no turn.
fn created_anew<D: Disk>(stage: Stage<D>) -> (Stage<D>, Result<u64, NodeFault>)
    requires { MayBeCreated D.told stage }
    ensures creation { (g : Game) (v : ℕ) (disks : Has D) → IsUncreated g v disks stage → IsCreatedAnew D.told D.size D.faults D.fate g v result.1 disks result.0 }
    ensures synced { (g : Game) (v : ℕ) (disks : Has D) → IsUncreated g v disks stage → AreTold D.told disks → IsSynced D.told D.faults g v result.0 }
    ensures here { result.0 ≡ Stage.Moved → ⊥ }
    ensures sound { IsFaultOfWorker result.1 }
{
    let (stage, answer) = stage.created();
    (stage, none_made(answer))
}

// Goes on from a recovered state and the records of its log, over its store. The error is want of memory.
fn gone_on<D: Disk>(
    store: Store<D>,
    state: &State,
    records: &[Record],
    mut parts: Parts,
) -> (Stage<D>, Result<u64, NodeFault>)
    requires nodes { (1 ≤ parts.nodes) × (parts.nodes ≤ 8) }
    requires cap { parts.cap ≤ 100000 }
    requires room { (64 ≤ vec_capacity parts.news) × (vec_len parts.news ≡ 0) }
    requires given { AreInputs parts.node parts.inputs.items }
    requires senders { length state.now.consumed ≡ 9 }
    requires sent { length state.now.sent ≡ 8 }
    requires mails { All (IsMailFrom parts.sends.backlog.node) state.now.messages }
    ensures turns { IfOk result.1 (λ turns. turns ≡ state.now.turns) }
    ensures ok { (g : Game) (v : ℕ) → AreReady g v parts → OnOk result.1 (GoesOn g v parts.turns.items store state.now records.now result.0) }
    ensures err { OnErr result.1 (IsPutBack parts (disks_in store) result.0) }
    ensures memory { IfErr result.1 (λ fault. fault ≡ NodeFault.Memory) }
    ensures here { result.0 ≡ Stage.Moved → ⊥ }
    ensures emissions { emissions_in result.0 ≡ (part_of parts.sends).emissions }
    ensures refusals { CountsAnew result.1 (part_of parts.sends).refusals (refusals_in result.0) }
    ensures disks { HasDisks (disks_in store) result.0 }
{
    match parts.resume(state, records) {
        Ok(()) => {
            let order = Order::resume(parts.nodes, state);
            let (turns, patches, sends) = parts.over(store, order);
            (Stage::Created(turns, patches, sends), Ok(state.turns))
        }
        Err(_) => (
            Stage::Uncreated(store.release(), parts),
            Err(NodeFault::Memory),
        ),
    }
}
