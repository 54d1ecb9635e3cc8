// An output, as an item of a list.
ghost use Rattle.std.specs.Prelude.{◌≡◌, ◌++◌, ◌↔◌, IsTrue};
ghost use Rattle.std.specs.List.{AllByRecursion};
ghost use Rattle.ken_record.specs.Spelling.{number, out};
ghost use Rattle.ken_record.specs.Grammar.{FitsOut, IsOut, out_rank, are_numbered, are_short};
ghost use Rattle.ken_record.specs.Reading.{out_at};

use crate::RecordFault;
use crate::bytes::{LONGEST, long_text_front, put_headed, u64_front};
use crate::field::Field;
use crate::rising::Ranked;
use ken_model::{MAX_TEXT, Out};
use std::alloc::{AllocError, Global};

// The bytes of an output before its text.
const HEAD: usize = 10;

// All that stands before the text of the output with this number, where it has so many bytes.
#[tactic(auto, unfolding(crate::specs::Spelling::number))]
fn head(own: u64, len: u16) -> [u8; HEAD]
    ensures { result ≡ number 8 own ++ number 2 len }
{
    let [n0, n1, n2, n3, n4, n5, n6, n7] = own.to_be_bytes();
    let [l0, l1] = len.to_be_bytes();
    [n0, n1, n2, n3, n4, n5, n6, n7, l0, l1]
}

impl Field for Out {
    ghost is = { FitsOut };

    ghost spell = { out };

    ghost reads = { out_at };

    fn fits(&self) -> bool {
        let _any = self.number;
        self.text.len() <= LONGEST
    }

    #[tactic(auto, using(crate::proofs::Sizes::out_long))]
    fn len(&self) -> usize {
        HEAD + self.text.len()
    }

    fn put(&self, out: &mut Vec<u8>) -> Result<(), AllocError> {
        let text = self.text.as_slice();
        put_headed(out, &head(self.number, text.len() as u16), text)
    }

    #[tactic(auto, unfolding(crate::specs::Reading::out_at))]
    fn read(alloc: Global, bytes: &[u8]) -> Result<(Self, &[u8]), RecordFault> {
        let (number, rest) = u64_front(bytes)?;
        let (text, rest) = long_text_front(alloc, rest)?;
        Ok((Out { number, text }, rest))
    }
}

impl Ranked for Out {
    ghost place = { out_rank };

    fn rank(&self) -> u128 {
        u128::from(self.number)
    }
}

// Whether each is numbered from 1.
pub(crate) fn are_numbered(outs: &[Out]) -> bool
    ensures { result ≡ are_numbered outs.now }
{
    for out in outs {
        if out.number == 0 {
            return false;
        }
    }
    true
}

// Whether none has a text of more than 512 bytes.
pub(crate) fn are_short(outs: &[Out]) -> bool
    ensures test { result ≡ are_short outs.now }
    ensures each { IsTrue result ↔ AllByRecursion IsOut outs.now }
{
    for out in outs {
        // What is read is in its type's range.
        let _number = out.number;
        if out.text.len() > MAX_TEXT {
            return false;
        }
    }
    true
}
