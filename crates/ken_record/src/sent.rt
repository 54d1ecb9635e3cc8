ghost use Rattle.std.specs.Prelude.{◌≡◌, ◌++◌};
ghost use Rattle.ken_record.specs.Spelling.{number, sent};
ghost use Rattle.ken_record.specs.Grammar.{IsSent};
ghost use Rattle.ken_record.specs.Reading.{sent_at};

use crate::RecordFault;
use crate::bytes::{put_headed, text_front, u8_front, u64_front};
use crate::field::Field;
use ken_model::{MAX_NODES, MAX_TEXT, Octets, Single};
use std::alloc::{AllocError, Global};

// The bytes of a message before its text.
const HEAD: usize = 11;

/// A message that a turn sent. Its stamp is its record's.
#[derive(Debug, Drop)]
pub struct Sent {
    pub to: u8,
    /// Its place on its link, from 1.
    pub number: u64,
    pub bytes: Octets,
}

impl Single for Sent {
    fn alone(&self) -> &[Sent] {
        std::slice::from_ref(self)
    }
}

// All that stands before the text of a message with this place on its link, where it has so many bytes.
#[tactic(auto, unfolding(crate::specs::Spelling::number))]
fn head(to: u8, place: u64, len: u16) -> [u8; HEAD]
    ensures { result ≡ number 1 to ++ (number 8 place ++ number 2 len) }
{
    let [n0, n1, n2, n3, n4, n5, n6, n7] = place.to_be_bytes();
    let [l0, l1] = len.to_be_bytes();
    [to, n0, n1, n2, n3, n4, n5, n6, n7, l0, l1]
}

impl Field for Sent {
    ghost is = { IsSent };

    ghost spell = { sent };

    ghost reads = { sent_at };

    fn fits(&self) -> bool {
        self.to < MAX_NODES && self.number > 0 && self.bytes.len() <= MAX_TEXT
    }

    #[tactic(auto, using(crate::proofs::Sizes::sent_long))]
    fn len(&self) -> usize {
        HEAD + self.bytes.len()
    }

    fn put(&self, out: &mut Vec<u8>) -> Result<(), AllocError> {
        let text = self.bytes.as_slice();
        let head = head(self.to, self.number, text.len() as u16);
        put_headed(out, &head, text)
    }

    #[tactic(auto, unfolding(crate::specs::Reading::sent_at))]
    fn read(alloc: Global, bytes: &[u8]) -> Result<(Self, &[u8]), RecordFault> {
        let (to, rest) = u8_front(bytes)?;
        let (number, rest) = u64_front(rest)?;
        let (bytes, rest) = text_front(alloc, rest)?;
        if to < MAX_NODES && number > 0 {
            Ok((Sent { to, number, bytes }, rest))
        } else {
            Err(RecordFault::Bad)
        }
    }
}
