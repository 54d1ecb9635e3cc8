// A packet that a node's handler is given.
ghost use Rattle.std.specs.Prelude.{◌≡◌, ◌<◌, IfOk};
ghost use Rattle.ken_packet.specs.Packets.{IsMail};
ghost use Rattle.ken_packet.specs.Reading.{packet_of};
ghost use Rattle.ken_work.specs.Hearing.{MayBeHeard, heard, heard_mail};

use ken_model::Message;
use ken_order::{Order, Verdict};
use ken_packet::{Packet, PacketFault, decode};
use std::alloc::{AllocError, Global};

// From this stamp on a mail is taken for an early one.
const HIGH: u64 = 1 << 63;

/// What a packet is to a node's handler.
#[derive(Debug, Drop)]
pub enum Heard {
    /// The next mail of its sender.
    Next(Message),
    /// A mail of this node that was consumed before.
    Again(u8),
    /// What is let go.
    Lost,
}

impl Heard {
    // A mail to the node from a node of the run.
    fn mail(order: &Order, message: Message) -> Self
        requires from { message.from < order.now.nodes }
        requires mail { IsMail message }
        ensures heard { result ≡ heard_mail order.now message }
        ensures may { MayBeHeard message.to order.now result }
    {
        match order.verdict(message.from, message.number) {
            Verdict::Next if message.stamp < HIGH => Heard::Next(message),
            Verdict::Old => Heard::Again(message.from),
            Verdict::Next | Verdict::Early => Heard::Lost,
        }
    }

    // What these bytes are to a node.
    pub(crate) fn of(
        alloc: Global,
        node: u8,
        nodes: u8,
        order: &Order,
        bytes: &[u8],
    ) -> Result<Self, AllocError>
        requires { order.now.nodes ≡ nodes }
        ensures heard { IfOk result (λ h. h ≡ heard node order.now (packet_of bytes.now)) }
        ensures may { IfOk result (MayBeHeard node order.now) }
    {
        match decode(alloc, bytes) {
            Ok(Packet::Mail(message)) if message.to == node && message.from < nodes => {
                Ok(Heard::mail(order, message))
            }
            Err(PacketFault::Memory) => Err(AllocError),
            Ok(_) | Err(_) => Ok(Heard::Lost),
        }
    }
}
