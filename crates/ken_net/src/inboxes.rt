ghost use Rattle.std.specs.Prelude.{◌≡◌, ◌<◌, [], length, replicate, slice_set, slice_get, slice_index_or, option_to_list, IfOk};
ghost use Rattle.ken_net.specs.Inboxes.{filed, Gave};

use crate::inbox::Inbox;
use ken_model::Octets;
use std::alloc::{AllocError, Global};
use std::marker::Model;

/// An inbox for each node, all of mail or all of acknowledgements. A contract sees the packets in each, oldest first.
#[derive(Debug, Drop)]
pub struct Inboxes {
    boxes: Vec<Inbox>,
}

impl Model for Inboxes {
    ghost use Rattle.std.specs.Prelude.{ℕ, List};

    ghost Value = { List (List (List ℕ)) };

    ghost view = { λ i. i.boxes.items };
}

impl Inboxes {
    /// Empty inboxes for so many nodes, with the memory for all that they will ever hold.
    pub fn new(alloc: Global, nodes: u8) -> Result<Self, AllocError>
        ensures { IfOk result (λ boxes. boxes ≡ replicate nodes []) }
    {
        let mut boxes = Vec::new(alloc);
        for _node in 0..nodes {
            boxes.push(Inbox::new(alloc)?)?;
        }
        Ok(Inboxes { boxes })
    }

    /// Inboxes for no node: they take no memory, and stand in for others that are lent by value.
    pub fn none(alloc: Global) -> Self
        ensures { result ≡ [] }
    {
        Inboxes {
            boxes: Vec::new(alloc),
        }
    }

    /// How many nodes there are, from 0 to 255.
    pub fn nodes(&self) -> usize
        ensures { result ≡ length self.now }
    {
        self.boxes.len()
    }

    pub(crate) fn push(&mut self, node: u8, bytes: Octets)
        requires { node < length self.old }
        ensures { self.new ≡ slice_set self.old node (filed bytes (slice_index_or self.old node [])) }
    {
        self.boxes[usize::from(node)].push(bytes);
    }

    pub(crate) fn take(&mut self, node: u8) -> Option<Octets>
        requires { node < length self.old }
        ensures gave { Gave node self.old self.new (option_to_list result) }
        ensures oldest { result ≡ slice_get (slice_index_or self.old node []) 0 }
    {
        self.boxes[usize::from(node)].take()
    }
}
