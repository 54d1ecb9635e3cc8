ghost use Rattle.std.specs.Prelude.{◌≡◌, ◌+◌, ◌<◌, ◌≤◌, ◌^◌, ◌↔◌, ◌⊎◌, max, length, slice_set, replicate};
ghost use Rattle.ken_order.specs.Consumed.{place, consumed_from, IsSender};

use ken_model::{MAX_NODES, OUTSIDE, State};
use std::marker::Model;

/// How many senders there may be: the nodes, then the outside.
pub const SENDERS: usize = MAX_NODES as usize + 1;

/// What to do with a message, by its number alone.
#[derive(Clone, Copy, Debug, PartialEq, Eq)]
pub enum Verdict {
    /// It is the next of its sender.
    Next,
    /// It was consumed before.
    Old,
    /// One before it is missing.
    Early,
}

/// The last stamp of a node, and how many messages of each sender it has consumed.
#[derive(Debug, Drop)]
pub struct Order {
    nodes: u8,
    stamp: u64,
    consumed: [u64; SENDERS],
}

impl Model for Order {
    ghost use Rattle.std.specs.Prelude.{◌≤◌};
    ghost use Rattle.ken_order.specs.Consumed.{Consumed};

    ghost Value = { Consumed };

    ghost view = { λ o. record { nodes = o.nodes; stamp = o.stamp; consumed = o.consumed } };

    ghost invariant = { λ o. o.nodes ≤ 8 };
}

// Where a sender stands among the consumed numbers.
fn place(from: u8) -> usize
    requires { (from < 8) ⊎ (from ≡ 255) }
    ensures { (result ≡ place from) × (result < 9) }
{
    if from == OUTSIDE {
        usize::from(MAX_NODES)
    } else {
        usize::from(from)
    }
}

impl Order {
    /// A node of a run of 1 to 8 nodes that has consumed nothing.
    pub fn new(nodes: u8) -> Self
        requires { (1 ≤ nodes) × (nodes ≤ 8) }
        ensures { result ≡ record { nodes = nodes; stamp = 0; consumed = replicate 9 0 } }
    {
        Order {
            nodes,
            stamp: 0,
            consumed: [0; SENDERS],
        }
    }

    /// A node of a run of 1 to 8 nodes, with the numbers of a state.
    pub fn resume(nodes: u8, state: &State) -> Self
        requires nodes { (1 ≤ nodes) × (nodes ≤ 8) }
        requires senders { length state.now.consumed ≡ 9 }
        ensures { result ≡ record { nodes = nodes; stamp = state.now.stamp; consumed = state.now.consumed } }
    {
        let mut consumed = [0; SENDERS];
        consumed.copy_from_slice(state.consumed.as_slice());
        Order {
            nodes,
            stamp: state.stamp,
            consumed,
        }
    }

    /// The number of the last message of a sender that was consumed, 0 before the first. A sender is a node of the run, or
    /// 255 for the outside.
    pub fn through(&self, from: u8) -> u64
        requires { IsSender self.now.nodes from }
        ensures { result ≡ consumed_from self.now from }
    {
        let consumed = &self.consumed;
        consumed[place(from)]
    }

    /// The stamp of the last turn, 0 before the first.
    pub fn stamp(&self) -> u64
        ensures { result ≡ self.now.stamp }
    {
        self.stamp
    }

    /// What to do with a message of a sender with this number.
    pub fn verdict(&self, from: u8, number: u64) -> Verdict
        requires { IsSender self.now.nodes from }
        ensures next { (result ≡ Verdict.Next) ↔ (number ≡ consumed_from self.now from + 1) }
        ensures old { (result ≡ Verdict.Old) ↔ (number ≤ consumed_from self.now from) }
        ensures early { (result ≡ Verdict.Early) ↔ (consumed_from self.now from + 1 < number) }
    {
        let through = self.through(from);
        if number <= through {
            Verdict::Old
        } else if number - through == 1 {
            Verdict::Next
        } else {
            Verdict::Early
        }
    }

    /// Consumes the next message of a sender, which has this number.
    pub fn consume(&mut self, from: u8, number: u64)
        requires sender { IsSender self.old.nodes from }
        requires next { number ≡ consumed_from self.old from + 1 }
        ensures { self.new ≡ record self.old { consumed = slice_set self.old.consumed (place from) number } }
    {
        let consumed = &mut self.consumed;
        consumed[place(from)] = number;
    }

    /// The stamp of a turn that takes a message with this stamp: one more than the larger of it and the last stamp. It is
    /// the last stamp from then on.
    pub fn stamp_after(&mut self, stamp: u64) -> u64
        requires last { self.old.stamp + 1 < 2 ^ 64 }
        requires message { stamp + 1 < 2 ^ 64 }
        ensures stamp { result ≡ max self.old.stamp stamp + 1 }
        ensures last { self.new ≡ record self.old { stamp = result } }
    {
        self.stamp = self.stamp.max(stamp) + 1;
        self.stamp
    }
}
