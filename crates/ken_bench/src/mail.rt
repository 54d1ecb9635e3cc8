// A packet that is put again and again.
ghost use Rattle.std.specs.Prelude.{◌≡◌, ◌<◌, true, IfOk};
ghost use Rattle.ken_packet.specs.Reading.{packet_of};
ghost use Rattle.ken_net.specs.Puts.{is_between};

use ken_model::{Message, Octets};
use ken_packet::{encode_mail, reading};
use std::alloc::{AllocError, Global};

/// A mail of 22 bytes from one node to another. Copies of it take no memory.
pub(crate) fn mail(alloc: Global, from: u8, to: u8) -> Result<Octets, AllocError>
    requires { (from < 8) × (to < 8) }
    ensures { IfOk result (λ bytes. is_between from to (packet_of bytes) ≡ true) }
{
    reading();
    let message = Message {
        from,
        to,
        number: 1,
        stamp: 1,
        bytes: Octets::copied(alloc, b"1")?,
    };
    let bytes = encode_mail(alloc, &message)?;
    Ok(bytes)
}
