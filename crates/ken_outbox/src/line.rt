// The messages to one node.
ghost use Rattle.std.specs.Prelude.{◌≡◌, ◌+◌, ◌<◌, ◌≤◌, [], ◌∷◌, ◌++◌, OnOk, nat_lt, if◌then◌else◌};
ghost use Rattle.std.specs.VecDeque.{deque_len, deque_capacity};
ghost use Rattle.ken_outbox.specs.Waiting.{past, is_first_within};

use ken_model::Message;
use std::alloc::{AllocError, Global};
use std::collections::VecDeque;

#[derive(Debug, Drop)]
pub(crate) struct Line {
    pub acked: u64,
    pub messages: VecDeque<Message>,
}

impl Line {
    pub(crate) fn new(alloc: Global) -> Self
        ensures { (result.acked ≡ 0) × (result.messages.items ≡ []) }
    {
        Line {
            acked: 0,
            messages: VecDeque::new(alloc),
        }
    }

    // Makes room for so many more messages.
    pub(crate) fn reserve(&mut self, more: usize) -> Result<(), AllocError>
        ensures same { (self.new.acked ≡ self.old.acked) × (self.new.messages.items ≡ self.old.messages.items) }
        ensures room { OnOk result (deque_len self.new.messages + more ≤ deque_capacity self.new.messages) }
    {
        self.messages.reserve(more)
    }

    pub(crate) fn push(&mut self, message: Message)
        requires { deque_len self.old.messages < deque_capacity self.old.messages }
        ensures acked { self.new.acked ≡ self.old.acked }
        ensures messages { self.new.messages.items ≡ self.old.messages.items ++ message ∷ [] }
        ensures room { (deque_len self.new.messages ≡ deque_len self.old.messages + 1) × (deque_capacity self.new.messages ≡ deque_capacity self.old.messages) }
    {
        self.messages.push_back_reserved(message);
    }

    // Lets go the messages at the front up to a number, where it is larger than before.
    #[tactic(auto, using(crate::proofs::Past::past_first, crate::proofs::Past::past_stays, crate::proofs::Past::shorter))]
    pub(crate) fn acknowledge(&mut self, through: u64)
        ensures acked { self.new.acked ≡ (if nat_lt self.old.acked through then through else self.old.acked) }
        ensures messages { self.new.messages.items ≡ (if nat_lt self.old.acked through then past through self.old.messages.items else self.old.messages.items) }
    {
        if through <= self.acked {
            return;
        }
        self.acked = through;
        while self.first_is_within(through) {
            self.messages.pop_front();
        }
    }

    // Whether the oldest message has at most this number.
    fn first_is_within(&self, through: u64) -> bool
        ensures { result ≡ is_first_within through self.now.messages.items }
    {
        match self.messages.front() {
            Some(message) => message.number <= through,
            None => false,
        }
    }
}
