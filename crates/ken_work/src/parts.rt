// What a node's workers are made of.
ghost use Rattle.std.specs.Prelude.{◌≡◌, ◌<◌, ◌≤◌, length, vec_capacity, vec_len, IfOk, OnOk, OnErr};
ghost use Rattle.std.specs.List.{All};
ghost use Rattle.ken_model.specs.Game.{game_of};
ghost use Rattle.ken_model.specs.Limits.{IsWithinLimits};
ghost use Rattle.ken_work.specs.Parts.{AreOver, CountsAnew, kept_turns, ArePartsOf, AreUnchanged, HaveResumed, IsSameParts, with_turn};
ghost use Rattle.ken_work.specs.First.{AreFirst};
ghost use Rattle.ken_work.specs.News.{AreInputs};
ghost use Rattle.ken_ship.specs.Fits.{IsMailFrom};
ghost use Rattle.ken_ship.specs.Parts.{part_of};
ghost use Rattle.ken_store.specs.Apart.{disks_apart};

use crate::effects::effects_of;
use crate::inputs::inputs_for;
use crate::items::{Feedback, Frozen, Settled};
use crate::patcher::PatchWorker;
use crate::worker::TurnWorker;
use ken_disk::Disk;
use ken_links::{PopEnd, PushEnd, SLOTS, ring};
use ken_model::{Facts, MAX_NODES, Message, PAGE, State};
use ken_order::Order;
use ken_record::{Effects, Record};
use ken_ship::{Progress, Sealed, SendWorker, Told};
use ken_store::{Disks, Store};
use std::alloc::{AllocError, Global};

/// All of a node's workers but its store.
#[derive(Drop)]
pub struct Parts {
    /// Where its workers take memory.
    pub alloc: Global,
    /// The node.
    pub node: u8,
    /// How many nodes the run has.
    pub nodes: u8,
    /// How many pages its heap has.
    pub size: u32,
    /// The most turns.
    pub cap: u64,
    /// Its inputs, oldest first.
    pub inputs: Vec<Message>,
    /// All its sealed turns, oldest first.
    pub turns: Vec<Effects>,
    /// Room for what the externaliser tells at a meeting.
    pub news: Vec<Told>,
    /// The ring from the handler to the patcher.
    pub pages: (PushEnd<Frozen>, PopEnd<Frozen>),
    /// The ring back.
    pub settled: (PushEnd<Settled>, PopEnd<Settled>),
    /// The handler's end of the ring to the externaliser.
    pub sealed: PushEnd<Sealed>,
    /// Its end of the ring back.
    pub progress: PopEnd<Told>,
    /// The externaliser.
    pub sends: SendWorker,
}

impl Parts {
    /// Those of a node of a run.
    pub fn new(alloc: Global, node: u8, facts: &Facts) -> Result<Parts, AllocError>
        requires limits { IsWithinLimits (game_of facts.now) }
        requires known { node < facts.now.nodes }
        ensures { IfOk result (AreFirst (game_of facts.now) node) }
    {
        let (sealed, popped) = ring(alloc)?;
        let (told, progress) = ring(alloc)?;
        Ok(Parts {
            alloc,
            node,
            nodes: facts.nodes,
            size: (facts.size / PAGE) as u32,
            cap: facts.turns,
            inputs: inputs_for(alloc, node, facts.inputs.as_slice())?,
            turns: Vec::new(alloc),
            news: Vec::with_capacity(alloc, SLOTS)?,
            pages: ring(alloc)?,
            settled: ring(alloc)?,
            sealed,
            progress,
            sends: SendWorker::new(alloc, node, facts.nodes, popped, told)?,
        })
    }

    /// The workers, over a store. They judge mail by this order.
    pub fn over<D: Disk>(
        self,
        store: Store<D>,
        order: Order,
    ) -> (TurnWorker<D>, PatchWorker<D>, SendWorker)
        requires nodes { self.nodes ≤ 8 }
        requires cap { self.cap ≤ 100000 }
        requires room { (64 ≤ vec_capacity self.news) × (vec_len self.news ≡ 0) }
        requires given { AreInputs self.node self.inputs.items }
        ensures { AreOver self store order result.0 result.1 result.2 }
    {
        let (turning, patching) = store.split();
        let (pages, frozen) = self.pages;
        let (told, settled) = self.settled;
        let turns = TurnWorker {
            alloc: self.alloc,
            node: self.node,
            nodes: self.nodes,
            cap: self.cap,
            inputs: self.inputs,
            side: turning,
            order,
            turns: self.turns,
            told: Feedback {
                settled: 0,
                progress: Progress {
                    acked: [0; MAX_NODES as usize],
                    emitted: 0,
                },
            },
            pages,
            sealed: self.sealed,
            settled,
            progress: self.progress,
            news: self.news,
        };
        let patches = PatchWorker {
            side: patching,
            pages: frozen,
            settled: told,
        };
        (turns, patches, self.sends)
    }

    /// The disks of workers, and what else they are made of.
    pub fn of<D: Disk>(
        turns: TurnWorker<D>,
        patches: PatchWorker<D>,
        sends: SendWorker,
    ) -> (Disks<D>, Parts)
        ensures disks { result.0 ≡ disks_apart turns.side patches.side }
        ensures parts { ArePartsOf turns patches sends result.1 }
    {
        let size = turns.side.pages();
        let disks = Store::join(turns.side, patches.side).release();
        let parts = Parts {
            alloc: turns.alloc,
            node: turns.node,
            nodes: turns.nodes,
            size,
            cap: turns.cap,
            inputs: turns.inputs,
            turns: turns.turns,
            news: turns.news,
            pages: (turns.pages, patches.pages),
            settled: (patches.settled, turns.settled),
            sealed: turns.sealed,
            progress: turns.progress,
            sends,
        };
        (disks, parts)
    }

    // The turn of the last of these records, where fewer turns are kept than a state counts.
    fn unkept(&self, count: u64, records: &[Record]) -> Result<Option<Effects>, AllocError>
        ensures { IfOk result (λ turn. kept_turns self.now.turns.items count records.now ≡ with_turn self.now.turns.items turn) }
    {
        if self.turns.len() as u64 >= count {
            return Ok(None);
        }
        match records.last() {
            Some(last) => Ok(Some(effects_of(self.alloc, last)?)),
            None => Ok(None),
        }
    }

    /// Goes on from a recovered state and the records of its log: its last turn is kept where it wasn't, and the externaliser
    /// resumes. The error is want of memory, and nothing has changed then.
    pub fn resume(&mut self, state: &State, records: &[Record]) -> Result<(), AllocError>
        requires sent { length state.now.sent ≡ 8 }
        requires mails { All (IsMailFrom self.old.sends.backlog.node) state.now.messages }
        ensures rest { IsSameParts self.old self.new }
        ensures refusals { CountsAnew result (part_of self.old.sends).refusals (part_of self.new.sends).refusals }
        ensures ok { OnOk result (HaveResumed state.now records.now self.old self.new) }
        ensures err { OnErr result (AreUnchanged self.old self.new) }
    {
        self.turns.reserve(1)?;
        let last = self.unkept(state.turns, records)?;
        self.sends.resume(state)?;
        self.keep(last);
        Ok(())
    }

    // Keeps a turn, where there is one. There is room.
    fn keep(&mut self, turn: Option<Effects>)
        requires { vec_len self.old.turns < vec_capacity self.old.turns }
        ensures turns { self.new.turns.items ≡ with_turn self.old.turns.items turn }
        ensures rest { self.new ≡ record self.old { turns = self.new.turns } }
    {
        if let Some(effects) = turn {
            self.turns.push_reserved(effects);
        }
    }
}
