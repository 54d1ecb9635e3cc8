// Acknowledgements that a node takes from a net.
ghost use Rattle.std.specs.Prelude.{◌≡◌, ◌≤◌, [], option_to_list};
ghost use Rattle.ken_packet.specs.Reading.{packet_of};
ghost use Rattle.ken_ship.specs.Parts.{due_in};
ghost use Rattle.ken_ship.specs.Taking.{ack_in, after_acks, Heard};

use crate::backlog::Backlog;
use ken_net::Net;
use ken_packet::{Packet, decode};
use std::alloc::Global;

/// How many packets a call takes, at most.
pub const MOST_TAKEN: usize = 4096;

// The acknowledgement that a packet is, where it is one to `node` from one of so many nodes: its sender, and how far it
// goes.
fn ack_in(alloc: Global, node: u8, nodes: u8, bytes: &[u8]) -> Option<(u8, u64)>
    ensures { option_to_list result ≡ ack_in node nodes (packet_of bytes.now) }
{
    match decode(alloc, bytes) {
        Ok(Packet::Ack { from, to, through }) if to == node && from < nodes => Some((
            from, through,
        )),
        _ => None,
    }
}

// Takes a packet, where it is an acknowledgement.
fn hear(alloc: Global, backlog: &mut Backlog, nodes: u8, bytes: &[u8])
    requires nodes { nodes ≤ 8 }
    requires turns { backlog.old.turns.items ≡ [] }
    ensures node { backlog.new.node ≡ backlog.old.node }
    ensures handed { backlog.new.handed ≡ backlog.old.handed }
    ensures turns { backlog.new.turns.items ≡ [] }
    ensures due { due_in backlog.new ≡ record (due_in backlog.old) { lines = after_acks (ack_in backlog.old.node nodes (packet_of bytes.now)) (due_in backlog.old).lines } }
{
    if let Some((from, through)) = ack_in(alloc, backlog.node, nodes, bytes) {
        backlog.acknowledge(from, through);
    }
}

// Takes packets until the net gives none, or 4,096 were given.
pub(crate) fn hear_all<N: Net>(alloc: Global, backlog: &mut Backlog, nodes: u8, net: &mut N)
    requires nodes { nodes ≤ 8 }
    requires turns { backlog.old.turns.items ≡ [] }
    ensures node { backlog.new.node ≡ backlog.old.node }
    ensures handed { backlog.new.handed ≡ backlog.old.handed }
    ensures turns { backlog.new.turns.items ≡ [] }
    ensures heard { Heard backlog.old.node nodes (N.given_between net.old net.new) (N.nones net.old) (N.nones net.new) (due_in backlog.old) (due_in backlog.new) }
    ensures end { (N.node net.new ≡ N.node net.old) × (N.nodes net.new ≡ N.nodes net.old) }
    ensures put { N.put_between net.old net.new [] }
{
    for _taken in 0..MOST_TAKEN {
        match net.take() {
            Some(bytes) => hear(alloc, backlog, nodes, bytes.as_slice()),
            None => return,
        }
    }
}
