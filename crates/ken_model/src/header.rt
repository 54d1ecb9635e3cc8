// The 16 bytes before the cells of a heap: the root, the name of the layout, and the number of pages.
ghost use Rattle.std.specs.Prelude.{◌≡◌, ◌++◌, length, take, replicate, codes, IfSome, IfNone};
ghost use Rattle.byteorder.specs.Endian.{big_bytes, big_number};
ghost use Rattle.ken_model.specs.Layout.{part};
ghost use Rattle.ken_model.specs.Checks.{IsWrongHeader};

use byteorder::{BigEndian, ByteOrder};

const NAME: [u8; 4] = *b"KENH";

const NAME_AT: u64 = 8;

const PAGES_AT: u64 = 12;

/// Those of a heap with the root 0.
pub fn empty_header(pages: u32) -> [u8; 16]
    ensures { result ≡ replicate 8 0 ++ codes "KENH" ++ big_bytes 4 pages }
{
    let mut bytes = [0; 16];
    bytes[8..12].copy_from_slice(&NAME);
    BigEndian::write_u32(&mut bytes[12..], pages);
    bytes
}

/// Where they are wrong first in a heap of so many pages: 8 for the name, 12 for the number of pages. Any bytes are those
/// of a root. `None` exactly where they are right.
pub fn wrong_header(bytes: &[u8], pages: u32) -> Option<u64>
    requires { length bytes.now ≡ 16 }
    ensures root { take 8 bytes.now ≡ big_bytes 8 (big_number 8 bytes.now) }
    ensures name { IfNone result (part 8 4 bytes.now ≡ codes "KENH") }
    ensures pages { IfNone result (part 12 4 bytes.now ≡ big_bytes 4 pages) }
    ensures wrong { IfSome result (λ place. IsWrongHeader bytes.now pages place) }
{
    let name = &bytes[8..12];
    if name != NAME.as_slice() {
        return Some(NAME_AT);
    }
    let mut count = [0; 4];
    BigEndian::write_u32(&mut count, pages);
    if &bytes[12..] != count.as_slice() {
        return Some(PAGES_AT);
    }
    None
}
