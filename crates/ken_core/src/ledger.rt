// What a node has sealed, with what is found by number kept beside the turns.
ghost use Rattle.std.specs.Prelude.{◌≡◌, ◌≢◌, ◌≤◌, length, slice_get, option_copied, IsNone, IfSome};
ghost use Rattle.ken_model.specs.Network.{outside};
ghost use Rattle.ken_core.specs.Turns.{consumed_from, stamp_after};
ghost use Rattle.ken_core.specs.Ledgers.{sent_to, IsSomeLedger};

use ken_model::{Message, OUTSIDE, Out};
use ken_record::Effects;

#[derive(Debug, Drop)]
pub(crate) struct Ledger {
    pub turns: Vec<Effects>,
    /// How many messages of each node it consumed.
    pub consumed: Vec<u64>,
    pub inputs: Vec<Message>,
    /// How many of its inputs it consumed.
    pub inputs_consumed: u64,
    /// All that it sent to each node.
    pub sent: Vec<Vec<Message>>,
    pub outs: Vec<Out>,
}

impl Ledger {
    /// The stamp of the last turn, 0 before the first.
    pub(crate) fn stamp(&self) -> u64
        ensures { result ≡ stamp_after 0 self.now.turns.items }
    {
        match self.turns.last() {
            Some(turn) => turn.stamp,
            None => 0,
        }
    }

    /// How many messages of a sender it consumed: `None` where there is no such sender.
    pub(crate) fn consumed_from(&self, from: u8) -> Option<u64>
        requires { IsSomeLedger self.now }
        ensures some { IfSome result (λ n. n ≡ consumed_from from self.now.turns.items) }
        ensures none { IsNone result → (length self.now.consumed.items ≤ from) × (from ≢ outside) }
    {
        if from == OUTSIDE {
            return Some(self.inputs_consumed);
        }
        self.consumed.get(usize::from(from)).copied()
    }

    /// The input at a place among all inputs, from 0.
    pub(crate) fn input_at(&self, place: u64) -> Option<&Message>
        ensures { option_copied result ≡ slice_get self.now.inputs.items place }
    {
        self.inputs.get(place as usize)
    }

    /// The message to a node at a place among all that it sent there, from 0.
    pub(crate) fn sent_at(&self, to: u8, place: u64) -> Option<&Message>
        ensures { option_copied result ≡ slice_get (sent_to self.now to) place }
    {
        let list = self.sent.get(usize::from(to))?;
        list.get(place as usize)
    }
}
