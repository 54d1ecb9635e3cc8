ghost use Rattle.std.specs.Prelude.{◌≡◌, ◌++◌};
ghost use Rattle.ken_record.specs.Spelling.{due, number};
ghost use Rattle.ken_record.specs.Grammar.{FitsDue, due_rank};
ghost use Rattle.ken_record.specs.Reading.{due_at};

use crate::RecordFault;
use crate::bytes::{LONGEST, long_text_front, put_headed, u8_front, u64_front};
use crate::field::Field;
use crate::rising::Ranked;
use ken_model::Octets;
use std::alloc::{AllocError, Global};

// The bytes of a message before its text.
const HEAD: usize = 19;

// One more than the greatest number of a message.
const NUMBERS: u128 = 1 << 64;

/// A message that the node of a log sent, and that is not acknowledged yet.
#[derive(Debug, Drop)]
pub struct Due {
    pub to: u8,
    /// Its place on its link, from 1.
    pub number: u64,
    /// The stamp of the turn that sent it.
    pub stamp: u64,
    pub bytes: Octets,
}

// All that stands before the text of a message with this place on its link, where it has so many bytes.
#[tactic(auto, unfolding(crate::specs::Spelling::number))]
fn head(to: u8, place: u64, stamp: u64, len: u16) -> [u8; HEAD]
    ensures { result ≡ number 1 to ++ (number 8 place ++ (number 8 stamp ++ number 2 len)) }
{
    let [n0, n1, n2, n3, n4, n5, n6, n7] = place.to_be_bytes();
    let [s0, s1, s2, s3, s4, s5, s6, s7] = stamp.to_be_bytes();
    let [l0, l1] = len.to_be_bytes();
    [
        to, n0, n1, n2, n3, n4, n5, n6, n7, s0, s1, s2, s3, s4, s5, s6, s7, l0, l1,
    ]
}

impl Field for Due {
    ghost is = { FitsDue };

    ghost spell = { due };

    ghost reads = { due_at };

    fn fits(&self) -> bool {
        // What is read is in its type's range.
        let _to = self.to;
        let _number = self.number;
        let _stamp = self.stamp;
        self.bytes.len() <= LONGEST
    }

    #[tactic(auto, using(crate::proofs::Sizes::due_long))]
    fn len(&self) -> usize {
        HEAD + self.bytes.len()
    }

    fn put(&self, out: &mut Vec<u8>) -> Result<(), AllocError> {
        let text = self.bytes.as_slice();
        let head = head(self.to, self.number, self.stamp, text.len() as u16);
        put_headed(out, &head, text)
    }

    #[tactic(auto, unfolding(crate::specs::Reading::due_at))]
    fn read(alloc: Global, bytes: &[u8]) -> Result<(Self, &[u8]), RecordFault> {
        let (to, rest) = u8_front(bytes)?;
        let (number, rest) = u64_front(rest)?;
        let (stamp, rest) = u64_front(rest)?;
        let (bytes, rest) = long_text_front(alloc, rest)?;
        Ok((
            Due {
                to,
                number,
                stamp,
                bytes,
            },
            rest,
        ))
    }
}

impl Ranked for Due {
    ghost place = { due_rank };

    fn rank(&self) -> u128 {
        let to = u128::from(self.to);
        let number = u128::from(self.number);
        to * NUMBERS + number
    }
}
