// The packets that wait for one node.
ghost use Rattle.std.specs.Prelude.{◌≡◌, ◌++◌, [], slice_get, option_to_list, IfOk};
ghost use Rattle.ken_net.specs.Inboxes.{filed};

use ken_model::Octets;
use std::alloc::{AllocError, Global};
use std::collections::VecDeque;
use std::marker::Model;

/// How many packets an inbox holds at most.
pub const MAX_INBOX: usize = 1024;

// There is room for all that it may hold.
#[derive(Debug, Drop)]
pub(crate) struct Inbox {
    packets: VecDeque<Octets>,
}

impl Model for Inbox {
    ghost use Rattle.std.specs.Prelude.{ℕ, List, ◌≤◌};
    ghost use Rattle.std.specs.VecDeque.{deque_capacity};
    ghost use Rattle.ken_net.specs.declared.inbox.TheConstants.{MAX_INBOX};

    ghost Value = { List (List ℕ) };

    ghost view = { λ i. i.packets.items };

    ghost invariant = { λ i. MAX_INBOX ≤ deque_capacity i.packets };
}

impl Inbox {
    pub(crate) fn new(alloc: Global) -> Result<Self, AllocError>
        ensures { IfOk result (λ inbox. inbox ≡ []) }
    {
        Ok(Inbox {
            packets: VecDeque::with_capacity(alloc, MAX_INBOX)?,
        })
    }

    // Puts a packet behind the others. It is lost where the inbox is full.
    pub(crate) fn push(&mut self, bytes: Octets)
        ensures { self.new ≡ filed bytes self.old }
    {
        if self.packets.len() < MAX_INBOX {
            self.packets.push_back_reserved(bytes);
        }
    }

    // Takes the oldest packet.
    pub(crate) fn take(&mut self) -> Option<Octets>
        ensures rest { self.old ≡ option_to_list result ++ self.new }
        ensures oldest { result ≡ slice_get self.old 0 }
    {
        self.packets.pop_front()
    }
}
