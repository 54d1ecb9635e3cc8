//! What nodes send each other, in bytes: what is a packet, its one spelling, and how it is read back.
#![tactic(auto)]

mod decoding;
mod faults;
mod front;
mod laws;
mod packet;

pub use decoding::decode;
pub use faults::PacketFault;
pub use laws::{one_spelling, reading};
pub use packet::{Packet, encode, encode_mail};
