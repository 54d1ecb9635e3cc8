// A node's handler takes packets until one is a next mail.
ghost use Rattle.std.specs.Prelude.{◌≡◌, ◌<◌, ◌≤◌, [], ◌∷◌, IfOk, IfSome, IsSome, OnErr};
ghost use Rattle.ken_net.specs.Puts.{MayPut, handing, if_put};
ghost use Rattle.ken_order.specs.Consumed.{consumed_from};
ghost use Rattle.ken_packet.specs.Packets.{ack_bytes};
ghost use Rattle.ken_work.specs.Hearing.{Listens, ack_put, chosen};
ghost use Rattle.ken_work.specs.Making.{IsMessage};

use crate::hearing::Heard;
use crate::worker::TurnWorker;
use ken_disk::Disk;
use ken_model::{Message, OUTSIDE, Octets, TryClone};
use ken_net::{Handed, Net};
use ken_order::Order;
use ken_packet::{Packet, encode};
use ken_ship::MOST_TAKEN;
use std::alloc::{AllocError, Global};
use std::marker::Brand;

// Puts bytes for a node. The call picks what it hands in: how far messages of that node were consumed.
fn put_as<N: Net, H: Handed>(
    net: &mut N,
    to: u8,
    through: u64,
    bytes: Octets,
) -> Result<(), AllocError>
    requires to { to < N.nodes net.old }
    requires may { MayPut (N.node net.old) to H.sealed H.consumed bytes }
    ensures end { (N.node net.new ≡ N.node net.old) × (N.nodes net.new ≡ N.nodes net.old) }
    ensures put { N.put_between net.old net.new (if_put result (handing to H.sealed H.consumed bytes)) }
    ensures given { N.given_between net.old net.new [] }
    ensures nones { N.nones net.new ≡ N.nones net.old }
{
    net.put::<H>(to, bytes)
}

// Acknowledges messages of node `to` through this number, which is above 0. After an error nothing was put.
fn put_ack<N: Net>(
    net: &mut N,
    alloc: Global,
    node: u8,
    to: u8,
    through: u64,
) -> Result<(), AllocError>
    requires end { N.node net.old ≡ node }
    requires to { to < N.nodes net.old }
    requires nodes { (node < 8) × (to < 8) }
    requires some { 0 < through }
    ensures end { (N.node net.new ≡ N.node net.old) × (N.nodes net.new ≡ N.nodes net.old) }
    ensures put { N.put_between net.old net.new (if_put result (handing to [] ((to, through) ∷ []) (ack_bytes node to through))) }
    ensures given { N.given_between net.old net.new [] }
    ensures nones { N.nones net.new ≡ N.nones net.old }
{
    let packet = Packet::Ack {
        from: node,
        to,
        through,
    };
    let bytes = encode(alloc, &packet)?;
    put_as::<N, Brand>(net, to, through, bytes)
}

// Acknowledges what node `node` has consumed of a node: some message was. After an error nothing was put.
pub(crate) fn acknowledge<N: Net>(
    net: &mut N,
    alloc: Global,
    node: u8,
    order: &Order,
    from: u8,
) -> Result<(), AllocError>
    requires end { N.node net.old ≡ node }
    requires nodes { N.nodes net.old ≡ order.now.nodes }
    requires few { order.now.nodes ≤ 8 }
    requires node { node < order.now.nodes }
    requires from { from < order.now.nodes }
    requires some { 0 < consumed_from order.now from }
    ensures end { (N.node net.new ≡ N.node net.old) × (N.nodes net.new ≡ N.nodes net.old) }
    ensures put { N.put_between net.old net.new (if_put result (ack_put node order.now from)) }
    ensures given { N.given_between net.old net.new [] }
    ensures nones { N.nones net.new ≡ N.nones net.old }
{
    put_ack(net, alloc, node, from, order.through(from))
}

// Takes packets until one is a next mail, which is answered, or the net gives none, or 4,096 were given. Mail that was consumed
// before is acknowledged again, and all else is let go.
pub(crate) fn listen<N: Net>(
    net: &mut N,
    alloc: Global,
    node: u8,
    nodes: u8,
    order: &Order,
) -> Result<Option<Message>, AllocError>
    requires end { N.node net.old ≡ node }
    requires nodes { (N.nodes net.old ≡ nodes) × (order.now.nodes ≡ nodes) }
    requires few { nodes ≤ 8 }
    requires node { node < nodes }
    ensures listens { Listens node order.now (N.given_between net.old net.new) (N.put_between net.old net.new) (N.nones net.old) (N.nones net.new) result }
    ensures message { IfOk result (λ found. IfSome found (IsMessage node order.now)) }
    ensures end { (N.node net.new ≡ N.node net.old) × (N.nodes net.new ≡ N.nodes net.old) }
{
    for _taken in 0..MOST_TAKEN {
        let Some(bytes) = net.take() else {
            return Ok(None);
        };
        match Heard::of(alloc, node, nodes, order, bytes.as_slice())? {
            Heard::Next(message) => return Ok(Some(message)),
            Heard::Again(from) => acknowledge(net, alloc, node, order, from)?,
            Heard::Lost => {}
        }
    }
    Ok(None)
}

// The message of a turn, where none came by mail: a copy of the next input.
pub(crate) fn next_input(
    alloc: Global,
    inputs: &[Message],
    order: &Order,
) -> Result<Option<Message>, AllocError>
    ensures chosen { IfOk result (λ m. m ≡ chosen inputs.now order.now None) }
    ensures waits { OnErr result (IsSome (chosen inputs.now order.now None)) }
{
    match inputs.get(order.through(OUTSIDE) as usize) {
        Some(input) => Ok(Some(input.try_clone(alloc)?)),
        None => Ok(None),
    }
}
