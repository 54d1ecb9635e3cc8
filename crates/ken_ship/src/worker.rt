ghost use Rattle.std.specs.Prelude.{◌≡◌, ◌≤◌};
ghost use Rattle.ken_ship.specs.Last.{last_of};

use crate::backlog::Backlog;
use crate::hearing::hear_all;
use crate::items::{Sealed, Told};
use crate::sending::send_all;
use crate::{Emit, NodeFault, OutFault, Outlet};
use ken_links::{PopEnd, PushEnd, empty};
use ken_model::{Emission, State};
use ken_net::Net;
use std::alloc::{AllocError, Global};

/// How often in a row an output may be refused.
pub const MOST_REFUSALS: u8 = 64;

/// A node's externaliser. It is handed what its node's turns sent and output, sends until that is acknowledged, and emits.
#[derive(Drop)]
pub struct SendWorker {
    alloc: Global,
    nodes: u8,
    backlog: Backlog,
    emissions: Vec<Emission>,
    last_emitted: u64,
    refusals: u8,
    sealed: PopEnd<Sealed>,
    told: PushEnd<Told>,
    ghost few: { nodes ≤ 8 },
    ghost counted: { refusals ≤ 64 },
    ghost last: { last_emitted ≡ last_of emissions.items },
}

impl SendWorker {
    ghost use Rattle.std.specs.Prelude.{◌≡◌, ◌+◌, ◌<◌, ◌≤◌, ◌⊎◌, ◌≢◌, [], Ok, Err, Some, IfOk, OnOk, OnErr, ◌++◌, length, vec_len, vec_capacity};
    ghost use Rattle.ken_links.specs.Rings.{pushed, free, popped, known, nones, IsRing, SamePushEnd, SamePopEnd, Moves};
    ghost use Rattle.ken_outbox.specs.Waiting.{nothing, resumed, next_number};
    ghost use Rattle.ken_ship.specs.Causes.{HasCause};
    ghost use Rattle.ken_ship.specs.Fates.{Suffers, Follows};
    ghost use Rattle.ken_ship.specs.Handing.{CountsTurns, HandedOver, Received};
    ghost use Rattle.std.specs.List.{All};
    ghost use Rattle.ken_ship.specs.Fits.{IsMailFrom};
    ghost use Rattle.ken_ship.specs.Outlets.{also_took};
    ghost use Rattle.ken_ship.specs.Parts.{part_of, IsSameWorker, SameSlots};
    ghost use Rattle.ken_ship.specs.Sending.{all_due, SentDue};
    ghost use Rattle.ken_ship.specs.Taking.{Heard, TellsRisen};
    ghost use Rattle.ken_ship.specs.Emitting.{Emitted, emitted_of, outlet_answer};

    /// The externaliser of `node`, which is below the number of nodes, at most 8, of which it knows nothing yet. It pops
    /// what it is handed from one ring, and pushes what it tells on the other.
    pub fn new(
        alloc: Global,
        node: u8,
        nodes: u8,
        sealed: PopEnd<Sealed>,
        told: PushEnd<Told>,
    ) -> Result<Self, AllocError>
        requires node { node < nodes }
        requires nodes { nodes ≤ 8 }
        ensures part { IfOk result (λ w. part_of w ≡ record { due = nothing 8; emissions = []; refusals = 0; told = pushed told; handed = 0 }) }
        ensures node { IfOk result (λ w. (w.backlog.node ≡ node) × (w.nodes ≡ nodes)) }
        ensures ends { IfOk result (λ w. (w.sealed ≡ sealed) × (w.told ≡ told)) }
    {
        Ok(SendWorker {
            alloc,
            nodes,
            backlog: Backlog::new(alloc, node)?,
            emissions: Vec::new(alloc),
            last_emitted: 0,
            refusals: 0,
            sealed,
            told,
        })
    }

    /// Goes on after a restart of its node, with the messages and outputs of a state. Of those that the state counts, the
    /// ones that it doesn't hold count as acknowledged and emitted; what it was handed before is forgotten, the last turn that it was
    /// handed counts as the state's last, and an output has not been refused. What it emitted is kept. After an error, which is want of memory, nothing has changed.
    pub fn resume(&mut self, state: &State) -> Result<(), AllocError>
        requires sent { length state.now.sent ≡ 8 }
        requires mails { All (IsMailFrom self.old.backlog.node) state.now.messages }
        ensures worker { IsSameWorker self.old self.new }
        ensures ends { (self.new.sealed ≡ self.old.sealed) × (self.new.told ≡ self.old.told) }
        ensures ok { OnOk result (part_of self.new ≡ record (part_of self.old) { due = resumed 8 state.now; refusals = 0; handed = state.now.turns }) }
        ensures err { OnErr result (part_of self.new ≡ part_of self.old) }
    {
        self.backlog = Backlog::resume(self.alloc, self.backlog.node, state)?;
        self.refusals = 0;
        Ok(())
    }

    /// All that it emitted since it was made, oldest first.
    pub fn emissions(&self) -> &[Emission]
        ensures { result.now ≡ (part_of self.now).emissions }
    {
        self.emissions.as_slice()
    }

    /// The largest number of an output that it emitted since it was made, 0 for none. A restart doesn't take it back: what is
    /// emitted again then has a number up to it.
    pub fn last_emitted(&self) -> u64
        ensures { result ≡ last_of (part_of self.now).emissions }
    {
        self.last_emitted
    }

    /// Takes over each turn that its ring holds, from the end of the ring at which its handler pushes: then 64 slots are known
    /// there to be free. After an error, which is want of memory, what is in the ring is there still.
    pub fn receive(&mut self, ring: &mut PushEnd<Sealed>) -> Result<(), AllocError>
        requires { IsRing ring.old self.old.sealed }
        ensures worker { IsSameWorker self.old self.new }
        ensures ends { SamePushEnd ring.old ring.new × IsRing ring.new self.new.sealed }
        ensures same { (pushed ring.new ≡ pushed ring.old) × (nones self.new.sealed ≡ nones self.old.sealed) }
        ensures told { self.new.told ≡ self.old.told }
        ensures part { part_of self.new ≡ record (part_of self.old) { due = (part_of self.new).due; handed = (part_of self.new).handed } }
        ensures received { Received self.old.backlog.node (popped self.old.sealed) (popped self.new.sealed) (part_of self.old).due (part_of self.new).due }
        ensures number { CountsTurns (popped self.old.sealed) (popped self.new.sealed) (part_of self.old).handed (part_of self.new).handed }
        ensures queued { popped self.new.sealed ++ known self.new.sealed ≡ pushed ring.new }
        ensures ok { OnOk result ((popped self.new.sealed ≡ pushed ring.new) × (64 ≤ free ring.new)) }
        ensures err { OnErr result ((popped self.new.sealed ≡ popped self.old.sealed) × (part_of self.new ≡ part_of self.old)) }
    {
        self.backlog.receive(ring, &mut self.sealed)
    }

    /// Moves all that it told its handler to the end of a list, oldest first, from the end of the ring at which the handler
    /// pops: then 64 slots are known to be free. The error, which is want of memory, comes only where the list has no room for
    /// 64 more items; then nothing has moved. The list's capacity never shrinks.
    pub fn tell(&mut self, ring: &mut PopEnd<Told>, into: &mut Vec<Told>) -> Result<(), AllocError>
        requires { IsRing self.old.told ring.old }
        ensures worker { IsSameWorker self.old self.new }
        ensures ends { SamePopEnd ring.old ring.new × IsRing self.new.told ring.new }
        ensures same { nones ring.new ≡ nones ring.old }
        ensures sealed { self.new.sealed ≡ self.old.sealed }
        ensures part { part_of self.new ≡ part_of self.old }
        ensures moved { Moves (popped ring.old) (popped ring.new) into.old.items into.new.items }
        ensures queued { popped ring.new ++ known ring.new ≡ pushed self.new.told }
        ensures ok { OnOk result ((popped ring.new ≡ pushed self.new.told) × (64 ≤ free self.new.told)) }
        ensures err { OnErr result ((popped ring.new ≡ popped ring.old) × (into.new.items ≡ into.old.items)) }
        ensures full { OnErr result (vec_capacity into.old < vec_len into.old + 64) }
        ensures capacity { vec_capacity into.old ≤ vec_capacity into.new }
    {
        empty(&mut self.told, ring, into)
    }

    /// Pops turns from its ring until that gives none, or 64 were given, and then puts the oldest messages that wait: for each
    /// node of the run in order, the 16 oldest or all. After an error, which is want of memory, a front of them was put, and
    /// a turn that was popped isn't lost: it waits, and the next call of any kind begins with it.
    pub fn send_due<N: Net>(&mut self, net: &mut N) -> Result<(), AllocError>
        requires node { N.node net.old ≡ self.old.backlog.node }
        requires nodes { N.nodes net.old ≡ self.old.nodes }
        ensures worker { IsSameWorker self.old self.new }
        ensures told { self.new.told ≡ self.old.told }
        ensures handed { HandedOver result self.old.backlog.node (popped self.old.sealed) (popped self.new.sealed)
            (nones self.old.sealed) (nones self.new.sealed) (part_of self.old).due (part_of self.new).due }
        ensures number { CountsTurns (popped self.old.sealed) (popped self.new.sealed) (part_of self.old).handed (part_of self.new).handed }
        ensures part { part_of self.new ≡ record (part_of self.old) { due = (part_of self.new).due; handed = (part_of self.new).handed } }
        ensures put { SentDue result (N.put_between net.old net.new) (all_due self.old.nodes (part_of self.new).due.lines) }
        ensures given { N.given_between net.old net.new [] }
        ensures end { (N.node net.new ≡ N.node net.old) × (N.nodes net.new ≡ N.nodes net.old) }
        ensures nones { N.nones net.new ≡ N.nones net.old }
    {
        self.backlog.pop_from(&mut self.sealed)?;
        self.backlog.add_all()?;
        send_all(net, self.alloc, &self.backlog, self.nodes)
    }

    /// Takes packets until the net gives none, or 4,096 were given, and takes note of the acknowledgements to this node from
    /// nodes of the run; all else is let go, and so is an acknowledgement that goes further than what was handed over. An acknowledged
    /// number never falls. Where one rose, the handler is told: a slot must be known to be free. After an error, which is want of memory, nothing has changed, and nothing was taken.
    pub fn take_acks<N: Net>(&mut self, net: &mut N) -> Result<(), AllocError>
        requires { 0 < free self.old.told }
        ensures worker { IsSameWorker self.old self.new }
        ensures sealed { self.new.sealed ≡ self.old.sealed }
        ensures heard { OnOk result (Heard self.old.backlog.node self.old.nodes (N.given_between net.old net.new) (N.nones net.old) (N.nones net.new) (part_of self.old).due (part_of self.new).due) }
        ensures part { OnOk result (part_of self.new ≡ record (part_of self.old) { due = (part_of self.new).due; told = (part_of self.new).told }) }
        ensures told { OnOk result (TellsRisen (part_of self.old) (part_of self.new)) }
        ensures slots { SameSlots self.old.told self.new.told }
        ensures err { OnErr result ((part_of self.new ≡ part_of self.old) × (net.new ≡ net.old)) }
        ensures end { (N.node net.new ≡ N.node net.old) × (N.nodes net.new ≡ N.nodes net.old) }
        ensures put { N.put_between net.old net.new [] }
    {
        self.backlog.add_all()?;
        let before = self.backlog.progress();
        hear_all(self.alloc, &mut self.backlog, self.nodes, net);
        let now = self.backlog.progress();
        if now.acked != before.acked {
            self.told.push(Told {
                by: self.backlog.handed,
                progress: now,
            });
        }
        Ok(())
    }

    /// Emits the oldest output of all that it was handed: `Done` where the outlet took it, `Refused` where the outlet
    /// failed, `Nothing` exactly where none is due. The error is `Memory`, after which nothing was emitted, or `Outlet`: the
    /// same output was refused 64 times in a row before, and the outlet failed again. After each answer but `Done` the output
    /// waits still. What a call emits is told to the handler: a slot must be known to be free.
    #[tactic(auto, using(crate::proofs::Lists::none_first))]
    pub fn emit_once<O: Outlet>(&mut self, out: &mut O) -> Result<Emit, NodeFault>
        requires { 0 < free self.old.told }
        ensures worker { IsSameWorker self.old self.new }
        ensures sealed { self.new.sealed ≡ self.old.sealed }
        ensures part { Emitted self.old.backlog.node result (part_of self.old) (part_of self.new) }
        ensures slots { SameSlots self.old.told self.new.told }
        ensures took { O.took out.new ≡ also_took (emitted_of result (part_of self.old).due.outs) (O.took out.old) }
        ensures cause { HasCause (O.faults out.old) (O.faults out.new) (outlet_answer result) }
        ensures fate { Follows (Suffers (outlet_answer result)) (O.fate out.old) (O.fate out.new) }
    {
        self.backlog.add_all()?;
        let Some((number, text)) = self.backlog.next_out() else {
            return Ok(Emit::Nothing);
        };
        self.emissions.reserve(1)?;
        match out.emit(number, text.as_slice()) {
            Ok(()) => Ok(self.emitted(number)),
            Err(OutFault::Failed) => self.refused(),
            Err(OutFault::Memory) => Err(NodeFault::Memory),
        }
    }

    // The oldest output, which has this number, was emitted. There is room for one emission more.
    #[tactic(auto, using(crate::proofs::Last::last_of_push))]
    fn emitted(&mut self, number: u64) -> Emit
        requires slot { 0 < free self.old.told }
        requires turns { self.old.backlog.turns.items ≡ [] }
        requires room { vec_len self.old.emissions < vec_capacity self.old.emissions }
        requires first { next_number (part_of self.old).due.outs ≡ Some number }
        ensures worker { IsSameWorker self.old self.new }
        ensures sealed { self.new.sealed ≡ self.old.sealed }
        ensures part { Emitted self.old.backlog.node (Ok result) (part_of self.old) (part_of self.new) }
        ensures slots { SameSlots self.old.told self.new.told }
        ensures done { result ≡ Emit.Done number }
    {
        let node = self.backlog.node;
        let out = self.backlog.pop_out();
        self.emissions.push_reserved(Emission { node, out });
        self.last_emitted = self.last_emitted.max(number);
        self.refusals = 0;
        self.told.push(Told {
            by: self.backlog.handed,
            progress: self.backlog.progress(),
        });
        Emit::Done(number)
    }

    // The outlet refused the oldest output.
    fn refused(&mut self) -> Result<Emit, NodeFault>
        requires { (part_of self.old).due.outs ≢ [] }
        ensures worker { IsSameWorker self.old self.new }
        ensures sealed { self.new.sealed ≡ self.old.sealed }
        ensures part { Emitted self.old.backlog.node result (part_of self.old) (part_of self.new) }
        ensures slots { SameSlots self.old.told self.new.told }
        ensures failed { (result ≡ Ok Emit.Refused) ⊎ (result ≡ Err NodeFault.Outlet) }
    {
        if self.refusals == MOST_REFUSALS {
            return Err(NodeFault::Outlet);
        }
        self.refusals += 1;
        Ok(Emit::Refused)
    }
}
