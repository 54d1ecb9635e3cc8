// The numbers that a node's records come to.
ghost use Rattle.std.specs.Prelude.{◌≡◌, ◌+◌, ◌≤◌, ◌<◌, ◌^◌, ◌==◌, ◌&&◌, ◌||◌, [], true, nat_lt, slice_index_or, slice_set, IsTrue};
ghost use Rattle.ken_record.specs.Grammar.{IsBase};
ghost use Rattle.ken_record.specs.Versions.{One};
ghost use Rattle.ken_store.specs.Bases.{base_numbers};
ghost use Rattle.ken_store.specs.Numbers.{no_numbers, sender_index, sends_follow, sent_after, outs_follow, outputs_after, are_within, comes_next, follows, after_record};
ghost use Rattle.ken_store.specs.Turning.{record_of};

use crate::owner::Owner;
use ken_model::{MAX_NODES, OUTSIDE, Out};
use ken_record::{Base, Effects, Header, Page, Record, SENDERS, Sent};

// One for each node that there may be.
pub(crate) const NODES: usize = MAX_NODES as usize;

/// How far a node has come: the numbers that each record goes on with.
#[derive(Clone, Copy, Debug)]
pub(crate) struct Numbers {
    pub turns: u64,
    pub stamp: u64,
    // From the nodes 0 to 7, and then from the outside.
    pub consumed: [u64; SENDERS],
    // To the nodes 0 to 7.
    pub sent: [u64; NODES],
    pub outputs: u64,
}

impl Numbers {
    // Those of a node that made no turn.
    pub(crate) fn none() -> Self
        ensures { result ≡ no_numbers }
    {
        Numbers {
            turns: 0,
            stamp: 0,
            consumed: [0; SENDERS],
            sent: [0; NODES],
            outputs: 0,
        }
    }

    // Those that a log's base tells.
    pub(crate) fn of(header: &Header, base: &Base) -> Self
        requires { IsBase One base.now }
        ensures { result ≡ base_numbers header.now base.now }
    {
        let mut consumed = [0; SENDERS];
        consumed.copy_from_slice(base.consumed.as_slice());
        let mut sent = [0; NODES];
        sent.copy_from_slice(base.sent.as_slice());
        Numbers {
            turns: header.turns,
            stamp: base.stamp,
            consumed,
            sent,
            outputs: base.outputs,
        }
    }

    // Takes the numbers of a record over, where it follows these. Else nothing changes.
    pub(crate) fn take(&mut self, owner: &Owner, item: &Record) -> bool
        requires { owner.now.nodes ≤ 8 }
        ensures follows { result ≡ follows owner.now self.old item.now }
        ensures taken { IsTrue result → self.new ≡ after_record self.old item.now }
    {
        if !self.comes_next(owner, item) {
            return false;
        }
        let mut sent = self.sent;
        let sends_follow = take_sends(&mut sent, owner.nodes, item.sends.as_slice());
        let mut outputs = self.outputs;
        let outs_follow = take_outs(&mut outputs, item.outs.as_slice());
        if !(sends_follow && outs_follow && are_within(owner.pages, item.pages.as_slice())) {
            return false;
        }
        self.turns = item.turn;
        self.stamp = item.stamp;
        self.consumed[sender_index(item.from)] = item.number;
        self.sent = sent;
        self.outputs = outputs;
        true
    }

    // Goes on with the next turn, which follows with these effects.
    pub(crate) fn go_on(&mut self, owner: &Owner, effects: &Effects)
        requires nodes { owner.now.nodes ≤ 8 }
        requires turns { self.old.turns + 1 < 2 ^ 64 }
        requires follows { follows owner.now self.old (record_of (self.old.turns + 1) effects.now []) ≡ true }
        ensures { self.new ≡ after_record self.old (record_of (self.old.turns + 1) effects.now []) }
    {
        let sends_follow = take_sends(&mut self.sent, owner.nodes, effects.sends.as_slice());
        prove!(sends_follow);
        let outs_follow = take_outs(&mut self.outputs, effects.outs.as_slice());
        prove!(outs_follow);
        self.turns += 1;
        self.stamp = effects.stamp;
        self.consumed[sender_index(effects.from)] = effects.number;
    }

    // Whether the next turn follows with these effects, where it changes no page.
    pub(crate) fn follow(&self, owner: &Owner, effects: &Effects) -> bool
        ensures { result ≡ follows owner.now self.now (record_of (self.now.turns + 1) effects.now []) }
    {
        let mut sent = self.sent;
        let mut outputs = self.outputs;
        self.message_comes_next(owner, effects.stamp, effects.from, effects.number)
            && take_sends(&mut sent, owner.nodes, effects.sends.as_slice())
            && take_outs(&mut outputs, effects.outs.as_slice())
    }

    // Whether the record's turn, stamp and message come next.
    fn comes_next(&self, owner: &Owner, item: &Record) -> bool
        requires { owner.now.nodes ≤ 8 }
        ensures next { result ≡ comes_next owner.now self.now item.now }
        ensures sender { IsTrue result → sender_index item.now.from < 9 }
    {
        is_next(self.turns, item.turn)
            && self.message_comes_next(owner, item.stamp, item.from, item.number)
    }

    // Whether the stamp is greater, and the message the next one of a sender of the run.
    fn message_comes_next(&self, owner: &Owner, stamp: u64, from: u8, number: u64) -> bool
        ensures { result ≡ (nat_lt self.now.stamp stamp && (nat_lt from owner.now.nodes || from == 255) && (number == slice_index_or self.now.consumed (sender_index from) 0 + 1)) }
    {
        let sender = from < owner.nodes || from == OUTSIDE;
        self.stamp < stamp && sender && is_next(self.consumed_from(from), number)
    }

    // The number of the last message that was consumed from a sender.
    pub(crate) fn consumed_from(&self, from: u8) -> u64
        ensures { result ≡ slice_index_or self.now.consumed (sender_index from) 0 }
    {
        self.consumed.get(sender_index(from)).copied().unwrap_or(0)
    }
}

// Whether a number comes after another.
pub(crate) fn is_next(last: u64, number: u64) -> bool
    ensures { result ≡ (number == last + 1) }
{
    last < number && number - last == 1
}

// Where a sender is counted.
fn sender_index(from: u8) -> usize
    ensures { result ≡ sender_index from }
{
    if from == OUTSIDE {
        NODES
    } else {
        from as usize
    }
}

// Whether the sends follow; then these are the numbers of their links.
fn take_sends(sent: &mut [u64; NODES], nodes: u8, sends: &[Sent]) -> bool
    ensures follow { result ≡ sends_follow nodes sent.old sends.now }
    ensures taken { IsTrue result → sent.new ≡ sent_after sent.old sends.now }
{
    for send in sends {
        if send.to >= nodes || !is_next(sent_to(sent, send.to), send.number) {
            return false;
        }
        put_sent_to(sent, send.to, send.number);
    }
    true
}

// The number of the last message to a node, and 0 where there can be no such node.
fn sent_to(sent: &[u64; NODES], to: u8) -> u64
    ensures { result ≡ slice_index_or sent.now to 0 }
{
    sent.get(to as usize).copied().unwrap_or(0)
}

// Notes it. Where there can be no such node, nothing changes.
#[tactic(auto, using(std::proofs::lemmas::List::set_past))]
fn put_sent_to(sent: &mut [u64; NODES], to: u8, number: u64)
    ensures { sent.new ≡ slice_set sent.old to number }
{
    if to < MAX_NODES {
        sent[to as usize] = number;
    }
}

// Whether the outputs follow; then this is the last one's number.
pub(crate) fn take_outs(last: &mut u64, outs: &[Out]) -> bool
    ensures follow { result ≡ outs_follow last.old outs.now }
    ensures taken { IsTrue result → last.new ≡ outputs_after last.old outs.now }
{
    for out in outs {
        if !is_next(*last, out.number) {
            return false;
        }
        *last = out.number;
    }
    true
}

// Whether all pages lie in a heap of so many.
pub(crate) fn are_within(count: u32, pages: &[Page]) -> bool
    ensures { result ≡ are_within count pages.now }
{
    pages.iter().all(|page| page.page < count)
}
