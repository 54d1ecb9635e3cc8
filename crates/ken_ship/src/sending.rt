// Messages that a node puts on a net.
ghost use Rattle.std.specs.Prelude.{◌≡◌, ◌<◌, ◌≤◌, [], ◌∷◌};
ghost use Rattle.ken_packet.specs.Packets.{IsMail};
ghost use Rattle.ken_net.specs.Puts.{MayPut, handing, if_put};
ghost use Rattle.ken_ship.specs.Parts.{due_in};
ghost use Rattle.ken_ship.specs.Sending.{mail_put, due_to, all_due, SentDue};

use crate::backlog::Backlog;
use ken_model::{Message, Octets};
use ken_net::{Handed, Net};
use ken_packet::encode_mail;
use std::alloc::{AllocError, Global};
use std::marker::Brand;

/// How many messages to one node a call sends, at most.
pub const MOST_DUE: usize = 16;

// Puts bytes for a message's receiver. The call picks what it hands in.
fn put_as<N: Net, H: Handed>(
    net: &mut N,
    message: &Message,
    bytes: Octets,
) -> Result<(), AllocError>
    requires to { message.now.to < N.nodes net.old }
    requires may { MayPut (N.node net.old) message.now.to H.sealed H.consumed bytes }
    ensures end { (N.node net.new ≡ N.node net.old) × (N.nodes net.new ≡ N.nodes net.old) }
    ensures put { N.put_between net.old net.new (if_put result (handing message.now.to H.sealed H.consumed bytes)) }
    ensures given { N.given_between net.old net.new [] }
    ensures nones { N.nones net.new ≡ N.nones net.old }
{
    net.put::<H>(message.to, bytes)
}

// Puts a message as mail. After an error nothing was put.
fn put_mail<N: Net>(net: &mut N, alloc: Global, message: &Message) -> Result<(), AllocError>
    requires from { N.node net.old ≡ message.now.from }
    requires to { message.now.to < N.nodes net.old }
    requires mail { IsMail message.now }
    ensures end { (N.node net.new ≡ N.node net.old) × (N.nodes net.new ≡ N.nodes net.old) }
    ensures put { N.put_between net.old net.new (if_put result (mail_put message.now)) }
    ensures given { N.given_between net.old net.new [] }
    ensures nones { N.nones net.new ≡ N.nones net.old }
{
    let bytes = encode_mail(alloc, message)?;
    put_as::<N, Brand>(net, message, bytes)
}

// Puts the oldest messages to a node that wait, 16 at most.
fn send_to<N: Net>(net: &mut N, alloc: Global, backlog: &Backlog, to: u8) -> Result<(), AllocError>
    requires from { N.node net.old ≡ backlog.now.node }
    requires to { (to < N.nodes net.old) × (to < 8) }
    requires turns { backlog.now.turns.items ≡ [] }
    ensures end { (N.node net.new ≡ N.node net.old) × (N.nodes net.new ≡ N.nodes net.old) }
    ensures put { SentDue result (N.put_between net.old net.new) (due_to (due_in backlog.now).lines to) }
    ensures given { N.given_between net.old net.new [] }
    ensures nones { N.nones net.new ≡ N.nones net.old }
{
    for i in 0..MOST_DUE {
        let Some(message) = backlog.due(to, i) else {
            return Ok(());
        };
        put_mail(net, alloc, message)?;
    }
    Ok(())
}

// Puts them to each of so many nodes, in order.
pub(crate) fn send_all<N: Net>(
    net: &mut N,
    alloc: Global,
    backlog: &Backlog,
    nodes: u8,
) -> Result<(), AllocError>
    requires from { N.node net.old ≡ backlog.now.node }
    requires nodes { (N.nodes net.old ≡ nodes) × (nodes ≤ 8) }
    requires turns { backlog.now.turns.items ≡ [] }
    ensures end { (N.node net.new ≡ N.node net.old) × (N.nodes net.new ≡ N.nodes net.old) }
    ensures put { SentDue result (N.put_between net.old net.new) (all_due nodes (due_in backlog.now).lines) }
    ensures given { N.given_between net.old net.new [] }
    ensures nones { N.nones net.new ≡ N.nones net.old }
{
    for to in 0..nodes {
        send_to(net, alloc, backlog, to)?;
    }
    Ok(())
}
