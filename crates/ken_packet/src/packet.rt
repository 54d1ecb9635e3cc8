ghost use Rattle.std.specs.Prelude.{◌≡◌, ◌++◌, ◌↔◌, IfOk, IsTrue};
ghost use Rattle.ken_record.specs.Spelling.{number};
ghost use Rattle.ken_packet.specs.Packets.{IsMail, IsAck, IsPacket, head, counts, mail_bytes, ack_bytes, packet_bytes};

use ken_model::{MAX_NODES, MAX_TEXT, Message, Octets};
use std::alloc::{AllocError, Global};

pub(crate) const MAIL: u8 = 1;

pub(crate) const ACK: u8 = 2;

// The kind, the two ends, the number, the stamp, and the length of the text.
const MAIL_HEAD: usize = 3 + 8 + 8 + 2;

/// What goes from one node to another.
#[derive(Debug, Drop)]
pub enum Packet {
    /// A message of the link from `from` to `to`, both nodes.
    Mail(Message),
    /// Node `from` has consumed the messages of node `to` up to number `through`, from 1.
    Ack { from: u8, to: u8, through: u64 },
}

impl Packet {
    /// Whether it has a spelling.
    pub fn fits(&self) -> bool
        ensures { IsTrue result ↔ IsPacket self.now }
    {
        match self {
            Packet::Mail(message) => mail_fits(message),
            Packet::Ack { from, to, through } => ack_fits(*from, *to, *through),
        }
    }
}

pub(crate) fn mail_fits(message: &Message) -> bool
    ensures { IsTrue result ↔ IsMail message.now }
{
    let placed = message.from < MAX_NODES && message.to < MAX_NODES;
    let counted = message.number > 0 && message.stamp > 0;
    placed && counted && message.bytes.len() <= MAX_TEXT
}

pub(crate) fn ack_fits(from: u8, to: u8, through: u64) -> bool
    ensures { IsTrue result ↔ IsAck from to through }
{
    from < MAX_NODES && to < MAX_NODES && through > 0
}

/// The one spelling of a packet.
pub fn encode(alloc: Global, packet: &Packet) -> Result<Octets, AllocError>
    requires { IsPacket packet.now }
    ensures { IfOk result (λ bytes. bytes ≡ packet_bytes packet.now) }
{
    match packet {
        Packet::Mail(message) => encode_mail(alloc, message),
        Packet::Ack { from, to, through } => encode_ack(alloc, *from, *to, *through),
    }
}

/// The spelling of a message as mail, without a packet made of it. One with a text of at most 25 bytes takes no memory.
pub fn encode_mail(alloc: Global, message: &Message) -> Result<Octets, AllocError>
    requires { IsMail message.now }
    ensures { IfOk result (λ bytes. bytes ≡ mail_bytes message.now) }
{
    let text = message.bytes.as_slice();
    Octets::joined(alloc, &mail_head(message, text.len() as u16), text)
}

// It takes no memory.
#[tactic(auto, unfolding(ken_record::specs::Spelling::number))]
fn encode_ack(alloc: Global, from: u8, to: u8, through: u64) -> Result<Octets, AllocError>
    ensures { IfOk result (λ bytes. bytes ≡ ack_bytes from to through) }
{
    let count = through.to_be_bytes();
    Octets::joined(alloc, &[ACK, from, to], &count)
}

// All of a mail that stands before its text, which has so many bytes.
#[tactic(auto, unfolding(ken_record::specs::Spelling::number))]
fn mail_head(message: &Message, len: u16) -> [u8; MAIL_HEAD]
    requires { IsMail message.now }
    ensures { result ≡ head 1 message.now.from message.now.to ++ (counts message.now.number message.now.stamp ++ number 2 len) }
{
    let number = message.number.to_be_bytes();
    let stamp = message.stamp.to_be_bytes();
    let len = len.to_be_bytes();
    [
        MAIL,
        message.from,
        message.to,
        number[0],
        number[1],
        number[2],
        number[3],
        number[4],
        number[5],
        number[6],
        number[7],
        stamp[0],
        stamp[1],
        stamp[2],
        stamp[3],
        stamp[4],
        stamp[5],
        stamp[6],
        stamp[7],
        len[0],
        len[1],
    ]
}
