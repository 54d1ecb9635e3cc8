// Laws of the grammar, which no single call shows.
ghost use Rattle.std.specs.Prelude.{◌≡◌, ◌++◌, List, ℕ, Some};
ghost use Rattle.ken_packet.specs.declared.packet.Packet.{Packet};
ghost use Rattle.ken_packet.specs.Packets.{IsPacket, packet_bytes, sender};
ghost use Rattle.ken_packet.specs.Reading.{packet_of, AreBytes, sender_in};

/// What is read is the grammar: a packet's spelling is read as it, and bytes that are read are its spelling. The node
/// that it comes from is told by one byte.
pub fn reading()
    ensures again { (p : Packet) → IsPacket p → packet_of (packet_bytes p) ≡ Some p }
    ensures found { (bytes : List ℕ) (p : Packet) → AreBytes bytes → packet_of bytes ≡ Some p → IsPacket p × (bytes ≡ packet_bytes p) }
    ensures sender { (p : Packet) → IsPacket p → sender_in (packet_bytes p) ≡ sender p }
{}

/// No two packets are spelled alike, and no spelling begins another.
pub fn one_spelling()
    ensures { (a b : Packet) (x y : List ℕ) → IsPacket a → IsPacket b → packet_bytes a ++ x ≡ packet_bytes b ++ y → (a ≡ b) × (x ≡ y) }
{}
