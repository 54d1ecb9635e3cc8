ghost use Rattle.std.specs.Prelude.{◌≡◌, ◌↔◌, Some, None, IfOk, IsErrOf};
ghost use Rattle.ken_packet.specs.declared.packet.Packet.{Packet};
ghost use Rattle.ken_packet.specs.Packets.{IsPacket, packet_bytes};
ghost use Rattle.ken_packet.specs.Reading.{Shows, packet_of, mail_between, through_between, AreMail};

use crate::PacketFault;
use crate::front::{body_front, head_front, u64_front};
use crate::packet::{ACK, MAIL, Packet};
use ken_model::{MAX_NODES, Message, Octets};
use std::alloc::{AllocError, Global};

// A message whose bytes are still those of the packet.
#[derive(Drop)]
struct Lent<'a> {
    from: u8,
    to: u8,
    number: u64,
    stamp: u64,
    bytes: &'a [u8],
}

impl<'a> Lent<'a> {
    fn own(&self, alloc: Global) -> Result<Message, AllocError>
        ensures { IfOk result (λ m. m ≡ record { from = self.now.from; to = self.now.to; number = self.now.number; stamp = self.now.stamp; bytes = self.now.bytes.now }) }
    {
        Ok(Message {
            from: self.from,
            to: self.to,
            number: self.number,
            stamp: self.stamp,
            bytes: Octets::copied(alloc, self.bytes)?,
        })
    }
}

#[tactic(auto, unfolding(crate::specs::Reading::mail_between))]
fn mail_between(from: u8, to: u8, bytes: &[u8]) -> Option<Lent<'_>>
    ensures { Shows (λ m. record { from = m.from; to = m.to; number = m.number; stamp = m.stamp; bytes = m.bytes.now }) result (mail_between from to bytes.now) }
{
    let (((number, stamp), text), rest) = body_front(bytes)?;
    let placed = from < MAX_NODES && to < MAX_NODES;
    if rest.is_empty() && placed && number > 0 && stamp > 0 {
        Some(Lent {
            from,
            to,
            number,
            stamp,
            bytes: text,
        })
    } else {
        None
    }
}

#[tactic(auto, unfolding(crate::specs::Reading::through_between))]
fn through_between(from: u8, to: u8, bytes: &[u8]) -> Option<u64>
    ensures { result ≡ through_between from to bytes.now }
{
    let (through, rest) = u64_front(bytes)?;
    let placed = from < MAX_NODES && to < MAX_NODES;
    if rest.is_empty() && placed && through > 0 {
        Some(through)
    } else {
        None
    }
}

/// The packet that the bytes are. `BadPacket` comes exactly where they are none, and `Memory` only where they are a
/// mail: an acknowledgement takes no memory.
#[tactic(auto, unfolding(crate::specs::Reading::packet_of))]
pub fn decode(alloc: Global, bytes: &[u8]) -> Result<Packet, PacketFault>
    ensures read { IfOk result (λ packet. packet_of bytes.now ≡ Some packet) }
    ensures bad { IsErrOf result PacketFault.BadPacket ↔ (packet_of bytes.now ≡ None) }
    ensures memory { IsErrOf result PacketFault.Memory → AreMail bytes.now }
{
    let Some(((kind, (from, to)), rest)) = head_front(bytes) else {
        return Err(PacketFault::BadPacket);
    };
    match kind {
        MAIL => match mail_between(from, to, rest) {
            Some(lent) => Ok(Packet::Mail(lent.own(alloc)?)),
            None => Err(PacketFault::BadPacket),
        },
        ACK => match through_between(from, to, rest) {
            Some(through) => Ok(Packet::Ack { from, to, through }),
            None => Err(PacketFault::BadPacket),
        },
        _ => Err(PacketFault::BadPacket),
    }
}
