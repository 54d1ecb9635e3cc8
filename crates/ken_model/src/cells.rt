// The heads of a heap's cells.
ghost use Rattle.std.specs.Prelude.{◌≡◌, ℕ, ◌<◌, ◌^◌, ◌↔◌, length, IsTrue, IfSome, IfNone};
ghost use Rattle.ken_model.specs.Layout.{head_bytes};
ghost use Rattle.ken_model.specs.Checks.{IsCell};

use crate::rounded;
use byteorder::{BigEndian, ByteOrder};

/// The bytes of a head.
pub const HEAD: u64 = 16;

/// The place of the first cell.
pub const CELLS: u64 = 16;

/// What a cell says of itself.
#[derive(Clone, Copy)]
pub struct Head {
    /// The bytes of the whole cell.
    pub span: u32,
    /// The bytes of its block, or 0 for a gap.
    pub len: u32,
}

impl Head {
    /// The bytes that it is written as.
    pub fn bytes(self) -> [u8; 16]
        ensures { result ≡ head_bytes self.span self.len }
    {
        let mut bytes = [0; 16];
        BigEndian::write_u32(&mut bytes, self.span);
        BigEndian::write_u32(&mut bytes[4..], self.len);
        bytes
    }

    /// The head that 16 bytes are, of a cell within `room` bytes: `None` exactly where they are none. Two gaps are never
    /// side by side.
    pub fn of(bytes: &[u8], room: u64, after_gap: bool) -> Option<Head>
        requires long { length bytes.now ≡ 16 }
        requires room { room < 2 ^ 32 }
        ensures some { IfSome result (λ head. IsCell bytes.now room head.span head.len after_gap) }
        ensures none { IfNone result ((span len : ℕ) → IsCell bytes.now room span len after_gap → ⊥) }
    {
        let head = Head {
            span: BigEndian::read_u32(bytes),
            len: BigEndian::read_u32(&bytes[4..]),
        };
        if head.is_cell(bytes, room, after_gap) {
            Some(head)
        } else {
            None
        }
    }

    // Whether the bytes are this head, of a cell within so many bytes.
    fn is_cell(self, bytes: &[u8], room: u64, after_gap: bool) -> bool
        ensures { IsTrue result ↔ IsCell bytes.now room self.span self.len after_gap }
    {
        let span = u64::from(self.span);
        let right = if self.len == 0 {
            !after_gap && span >= HEAD && span % HEAD == 0
        } else {
            span == HEAD + rounded(u64::from(self.len))
        };
        right && span <= room && bytes == self.bytes().as_slice()
    }
}
