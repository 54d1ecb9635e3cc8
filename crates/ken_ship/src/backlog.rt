// What a node was handed to send and emit, and how far it came.
ghost use Rattle.std.specs.Prelude.{◌≡◌, ◌<◌, length, OnOk, OnErr};
ghost use Rattle.std.specs.List.{All};
ghost use Rattle.ken_outbox.specs.Waiting.{resumed};
ghost use Rattle.ken_ship.specs.Fits.{AreMails};
ghost use Rattle.ken_ship.specs.Handing.{acked_in, with_turn, progress_in};

use crate::copies;
use crate::items::{Progress, Sealed};
use ken_links::{PopEnd, PushEnd, SLOTS, beside, is_drained};
use ken_model::{MAX_NODES, Message, Octets, Out, State};
use ken_outbox::Outbox;
use std::alloc::{AllocError, Global};
use std::collections::VecDeque;

// The outbox has a line for each of the nodes that there may be, and `turns` are those that aren't in it yet. `handed` is the number
// of the last turn of all that it was handed. `staged` holds a turn's messages on their way into the outbox.
#[derive(Drop)]
pub(crate) struct Backlog {
    alloc: Global,
    pub node: u8,
    pub handed: u64,
    outbox: Outbox,
    turns: VecDeque<Sealed>,
    staged: VecDeque<Message>,
    progress: Progress,
    ghost low: { node < 8 },
    ghost each: { length outbox.lines ≡ 8 },
    ghost mails: { AreMails node outbox.lines },
    ghost acked: { acked_in outbox.lines ≡ progress.acked },
    ghost emitted: { outbox.emitted ≡ progress.emitted },
}

// Adds a turn of a node to its outbox, by way of a list for its messages. After an error nothing has changed in the outbox.
fn add_turn(
    alloc: Global,
    node: u8,
    outbox: &mut Outbox,
    staged: &mut VecDeque<Message>,
    turn: &Sealed,
) -> Result<(), AllocError>
    requires low { node < 8 }
    requires each { length outbox.old.lines ≡ 8 }
    ensures ok { OnOk result (outbox.new ≡ with_turn node turn.now outbox.old) }
    ensures err { OnErr result (outbox.new ≡ outbox.old) }
{
    copies::put_mails(alloc, node, turn.stamp, turn.sends.as_slice(), staged)?;
    outbox.take_over(alloc, staged, turn.outs.as_slice())
}

// How far messages were acknowledged and outputs emitted where a state resumes.
fn retired(state: &State) -> Progress
    requires sent { length state.now.sent ≡ 8 }
    requires to { All (λ m. m.to < 8) state.now.messages }
    ensures { result ≡ progress_in (resumed 8 state.now) }
{
    let mut acked = [0; MAX_NODES as usize];
    acked.copy_from_slice(state.sent.as_slice());
    for message in state.messages.as_slice() {
        let number = &mut acked[usize::from(message.to)];
        *number = number.saturating_sub(1);
    }
    Progress {
        acked,
        emitted: state.outputs.saturating_sub(state.outs.len() as u64),
    }
}

impl Backlog {
    ghost use Rattle.std.specs.Prelude.{◌≡◌, ◌≢◌, ◌+◌, ◌<◌, ◌≤◌, [], ◌++◌, nat_le, if◌then◌else◌, drop, IfOk, OnOk, OnErr, MatchOption, option_copied, option_map, Some, slice_get, slice_index_or, slice_set};
    ghost use Rattle.std.specs.VecDeque.{deque_len, deque_capacity};
    ghost use Rattle.ken_links.specs.Rings.{pushed, free, popped, known, nones, IsRing, SamePushEnd, SamePopEnd};
    ghost use Rattle.ken_outbox.specs.Waiting.{nothing, no_line};
    ghost use Rattle.ken_ship.specs.Fits.{IsMailFrom, IsMailTo};
    ghost use Rattle.ken_ship.specs.Handing.{CountsTurns, HandedOver, Received};
    ghost use Rattle.ken_ship.specs.Parts.{due_in};
    ghost use Rattle.ken_ship.specs.Taking.{after_ack, handed_by};

    pub(crate) fn new(alloc: Global, node: u8) -> Result<Self, AllocError>
        requires { node < 8 }
        ensures { IfOk result (λ b. (b.node ≡ node) × (b.handed ≡ 0) × (due_in b ≡ nothing 8)) }
    {
        Ok(Backlog {
            alloc,
            node,
            handed: 0,
            outbox: Outbox::new(alloc, MAX_NODES)?,
            turns: VecDeque::new(alloc),
            staged: VecDeque::new(alloc),
            progress: Progress {
                acked: [0; MAX_NODES as usize],
                emitted: 0,
            },
        })
    }

    // A node with the messages and outputs of a state. Those that the state counts and doesn't hold were acknowledged and
    // emitted.
    pub(crate) fn resume(alloc: Global, node: u8, state: &State) -> Result<Self, AllocError>
        requires low { node < 8 }
        requires sent { length state.now.sent ≡ 8 }
        requires mails { All (IsMailFrom node) state.now.messages }
        ensures node { IfOk result (λ b. b.node ≡ node) }
        ensures handed { IfOk result (λ b. b.handed ≡ state.now.turns) }
        ensures due { IfOk result (λ b. due_in b ≡ resumed 8 state.now) }
    {
        Ok(Backlog {
            alloc,
            node,
            handed: state.turns,
            outbox: Outbox::resume(alloc, MAX_NODES, state)?,
            turns: VecDeque::new(alloc),
            staged: VecDeque::new(alloc),
            progress: retired(state),
        })
    }

    // Adds the oldest turn that isn't in the outbox. After an error nothing has changed.
    fn add_oldest(&mut self) -> Result<(), AllocError>
        requires { 0 < length self.old.turns.items }
        ensures node { self.new.node ≡ self.old.node }
        ensures handed { self.new.handed ≡ self.old.handed }
        ensures due { due_in self.new ≡ due_in self.old }
        ensures turns { OnOk result (self.new.turns.items ≡ drop 1 self.old.turns.items) }
    {
        if let Some(turn) = self.turns.front() {
            add_turn(
                self.alloc,
                self.node,
                &mut self.outbox,
                &mut self.staged,
                turn,
            )?;
            self.turns.pop_front();
        }
        Ok(())
    }

    // Adds each turn that isn't in the outbox, oldest first. After an error some are in it, and the others wait still.
    pub(crate) fn add_all(&mut self) -> Result<(), AllocError>
        ensures node { self.new.node ≡ self.old.node }
        ensures handed { self.new.handed ≡ self.old.handed }
        ensures due { due_in self.new ≡ due_in self.old }
        ensures turns { OnOk result (self.new.turns.items ≡ []) }
    {
        while !self.turns.is_empty() {
            self.add_oldest()?;
        }
        Ok(())
    }

    // Pops turns until the ring gives none, or 64 were given. After an error nothing was popped.
    pub(crate) fn pop_from(&mut self, ring: &mut PopEnd<Sealed>) -> Result<(), AllocError>
        ensures node { self.new.node ≡ self.old.node }
        ensures ring { SamePopEnd ring.old ring.new }
        ensures handed { HandedOver result self.old.node (popped ring.old) (popped ring.new) (nones ring.old) (nones ring.new) (due_in self.old) (due_in self.new) }
        ensures number { CountsTurns (popped ring.old) (popped ring.new) self.old.handed self.new.handed }
    {
        self.turns.reserve(SLOTS)?;
        for _given in 0..SLOTS {
            match ring.pop() {
                Some(turn) => {
                    self.handed = turn.turn;
                    self.turns.push_back_reserved(turn);
                }
                None => return Ok(()),
            }
        }
        Ok(())
    }

    // Moves each turn of the ring behind those that wait: then 64 slots are known to be free. After an error nothing has
    // moved: what is in the ring is known.
    pub(crate) fn receive(
        &mut self,
        push: &mut PushEnd<Sealed>,
        ring: &mut PopEnd<Sealed>,
    ) -> Result<(), AllocError>
        requires { IsRing push.old ring.old }
        ensures node { self.new.node ≡ self.old.node }
        ensures ends { SamePushEnd push.old push.new × SamePopEnd ring.old ring.new × IsRing push.new ring.new }
        ensures same { (pushed push.new ≡ pushed push.old) × (nones ring.new ≡ nones ring.old) }
        ensures received { Received self.old.node (popped ring.old) (popped ring.new) (due_in self.old) (due_in self.new) }
        ensures number { CountsTurns (popped ring.old) (popped ring.new) self.old.handed self.new.handed }
        ensures queued { popped ring.new ++ known ring.new ≡ pushed push.new }
        ensures ok { OnOk result ((popped ring.new ≡ pushed push.new) × (64 ≤ free push.new)) }
        ensures err { OnErr result ((popped ring.new ≡ popped ring.old) × (due_in self.new ≡ due_in self.old) × (self.new.handed ≡ self.old.handed)) }
    {
        if is_drained(push, ring) {
            return Ok(());
        }
        beside(push, ring);
        self.turns.reserve(ring.known())?;
        self.move_known(ring);
        beside(push, ring);
        Ok(())
    }

    // Moves each turn that is known to be in the ring behind those that wait. There is room.
    fn move_known(&mut self, ring: &mut PopEnd<Sealed>)
        requires { deque_len self.old.turns + length (known ring.old) ≤ deque_capacity self.old.turns }
        ensures node { self.new.node ≡ self.old.node }
        ensures end { SamePopEnd ring.old ring.new × (nones ring.new ≡ nones ring.old) }
        ensures received { Received self.old.node (popped ring.old) (popped ring.new) (due_in self.old) (due_in self.new) }
        ensures number { CountsTurns (popped ring.old) (popped ring.new) self.old.handed self.new.handed }
        ensures all { popped ring.new ≡ popped ring.old ++ known ring.old }
    {
        for _moved in 0..ring.known() {
            let turn = ring.pop_known();
            self.handed = turn.turn;
            self.turns.push_back_reserved(turn);
        }
    }

    // The i-th oldest message to a node that waits in the outbox, from 0.
    pub(crate) fn due(&self, to: u8, i: usize) -> Option<&Message>
        requires to { to < 8 }
        requires turns { self.now.turns.items ≡ [] }
        ensures due { option_copied result ≡ slice_get (slice_index_or (due_in self.now).lines to no_line).messages i }
        ensures mail { MatchOption result (Unit {0}) (λ m. IsMailTo self.now.node to m.now) }
    {
        self.outbox.due(to, i)
    }

    // The oldest output that waits, with its number.
    pub(crate) fn next_out(&self) -> Option<(u64, &Octets)>
        requires { self.now.turns.items ≡ [] }
        ensures { option_map (λ x. record { number = x.0; text = x.1.now }) result ≡ slice_get (due_in self.now).outs 0 }
    {
        self.outbox.next_out()
    }

    // Whether a number goes no further than the messages to a node that were handed over.
    fn was_handed(&self, to: u8, through: u64) -> bool
        requires to { to < 8 }
        requires turns { self.now.turns.items ≡ [] }
        ensures { result ≡ nat_le through (handed_by (slice_index_or (due_in self.now).lines to no_line)) }
    {
        let acked = self.progress.acked[usize::from(to)];
        through <= acked || self.due(to, (through - acked - 1) as usize).is_some()
    }

    // A node tells that it has consumed the messages to it up to a number. One that isn't larger than each before changes nothing,
    // and one that goes further than what was handed over is let go.
    pub(crate) fn acknowledge(&mut self, from: u8, through: u64)
        requires from { from < 8 }
        requires turns { self.old.turns.items ≡ [] }
        ensures node { self.new.node ≡ self.old.node }
        ensures handed { self.new.handed ≡ self.old.handed }
        ensures turns { self.new.turns.items ≡ [] }
        ensures due { due_in self.new ≡ record (due_in self.old) { lines = after_ack (from, through) (due_in self.old).lines } }
    {
        if self.was_handed(from, through) {
            self.outbox.acked(from, through);
            self.progress.raise(from, through);
        }
    }

    // Takes the oldest output, which was emitted.
    pub(crate) fn pop_out(&mut self) -> Out
        requires waits { (due_in self.old).outs ≢ [] }
        requires turns { self.old.turns.items ≡ [] }
        ensures node { self.new.node ≡ self.old.node }
        ensures handed { self.new.handed ≡ self.old.handed }
        ensures turns { self.new.turns.items ≡ [] }
        ensures first { slice_get (due_in self.old).outs 0 ≡ Some result }
        ensures due { due_in self.new ≡ record (due_in self.old) { emitted = result.number; outs = drop 1 (due_in self.old).outs } }
    {
        let out = self.outbox.pop_out();
        self.progress.emitted = out.number;
        out
    }

    // How far messages are acknowledged and outputs emitted.
    pub(crate) fn progress(&self) -> Progress
        requires { self.now.turns.items ≡ [] }
        ensures { result ≡ progress_in (due_in self.now) }
    {
        self.progress
    }
}
