// Numbers and byte strings at the front of bytes. What appends one leaves a front of its spelling where memory runs out.
ghost use Rattle.std.specs.Prelude.{◌≡◌, ◌++◌, OnOk, OnErr};
ghost use Rattle.ken_record.specs.Spelling.{number, text};
ghost use Rattle.ken_record.specs.Grammar.{FitsText};
ghost use Rattle.ken_record.specs.Appending.{HasFront};
ghost use Rattle.ken_record.specs.Reading.{Gives, number_at, part_at, text_at, long_text_at};

use crate::RecordFault;
use ken_model::{MAX_TEXT, Octets};
use ken_num::{put_u8, put_u16, put_u32, put_u64, u8_at, u16_at, u32_at, u64_at};
use std::alloc::{AllocError, Global};

/// The most bytes of a text: its length has two bytes.
pub(crate) const LONGEST: usize = 0xffff;

#[tactic(auto, unfolding(crate::specs::Reading::number_at))]
pub(crate) fn u8_front(bytes: &[u8]) -> Result<(u8, &[u8]), RecordFault>
    ensures { Gives (λ x. (x.0, x.1.now)) result (number_at 1 bytes.now) }
{
    match u8_at(bytes, 0) {
        Some(number) => Ok((number, &bytes[1..])),
        None => Err(RecordFault::Bad),
    }
}

#[tactic(auto, unfolding(crate::specs::Reading::number_at))]
pub(crate) fn u16_front(bytes: &[u8]) -> Result<(u16, &[u8]), RecordFault>
    ensures { Gives (λ x. (x.0, x.1.now)) result (number_at 2 bytes.now) }
{
    match u16_at(bytes, 0) {
        Some(number) => Ok((number, &bytes[2..])),
        None => Err(RecordFault::Bad),
    }
}

#[tactic(auto, unfolding(crate::specs::Reading::number_at))]
pub(crate) fn u32_front(bytes: &[u8]) -> Result<(u32, &[u8]), RecordFault>
    ensures { Gives (λ x. (x.0, x.1.now)) result (number_at 4 bytes.now) }
{
    match u32_at(bytes, 0) {
        Some(number) => Ok((number, &bytes[4..])),
        None => Err(RecordFault::Bad),
    }
}

#[tactic(auto, unfolding(crate::specs::Reading::number_at))]
pub(crate) fn u64_front(bytes: &[u8]) -> Result<(u64, &[u8]), RecordFault>
    ensures { Gives (λ x. (x.0, x.1.now)) result (number_at 8 bytes.now) }
{
    match u64_at(bytes, 0) {
        Some(number) => Ok((number, &bytes[8..])),
        None => Err(RecordFault::Bad),
    }
}

// So many bytes, and those after them.
#[tactic(auto, unfolding(crate::specs::Reading::part_at))]
pub(crate) fn part_front(bytes: &[u8], len: usize) -> Result<(&[u8], &[u8]), RecordFault>
    ensures { Gives (λ x. (x.0.now, x.1.now)) result (part_at len bytes.now) }
{
    if bytes.len() < len {
        return Err(RecordFault::Bad);
    }
    Ok(bytes.split_at(len))
}

// A text of at most 512 bytes.
#[tactic(auto, unfolding(crate::specs::Reading::text_at))]
pub(crate) fn text_front(alloc: Global, bytes: &[u8]) -> Result<(Octets, &[u8]), RecordFault>
    ensures { Gives (λ x. (x.0, x.1.now)) result (text_at bytes.now) }
{
    let (len, rest) = u16_front(bytes)?;
    let len = usize::from(len);
    if len > MAX_TEXT {
        return Err(RecordFault::Bad);
    }
    let (text, rest) = part_front(rest, len)?;
    Ok((Octets::copied(alloc, text)?, rest))
}

// The same, of whatever length the two bytes tell.
#[tactic(auto, unfolding(crate::specs::Reading::long_text_at))]
pub(crate) fn long_text_front(alloc: Global, bytes: &[u8]) -> Result<(Octets, &[u8]), RecordFault>
    ensures { Gives (λ x. (x.0, x.1.now)) result (long_text_at bytes.now) }
{
    let (len, rest) = u16_front(bytes)?;
    let (text, rest) = part_front(rest, usize::from(len))?;
    Ok((Octets::copied(alloc, text)?, rest))
}

#[tactic(auto, unfolding(crate::specs::Spelling::number))]
pub(crate) fn put_1(out: &mut Vec<u8>, n: u8) -> Result<(), AllocError>
    ensures ok { OnOk result (out.new.items ≡ out.old.items ++ number 1 n) }
    ensures err { OnErr result (HasFront out.old.items (number 1 n) out.new.items) }
{
    put_u8(out, n)
}

#[tactic(auto, unfolding(crate::specs::Spelling::number))]
pub(crate) fn put_2(out: &mut Vec<u8>, n: u16) -> Result<(), AllocError>
    ensures ok { OnOk result (out.new.items ≡ out.old.items ++ number 2 n) }
    ensures err { OnErr result (HasFront out.old.items (number 2 n) out.new.items) }
{
    put_u16(out, n)
}

#[tactic(auto, unfolding(crate::specs::Spelling::number))]
pub(crate) fn put_4(out: &mut Vec<u8>, n: u32) -> Result<(), AllocError>
    ensures ok { OnOk result (out.new.items ≡ out.old.items ++ number 4 n) }
    ensures err { OnErr result (HasFront out.old.items (number 4 n) out.new.items) }
{
    put_u32(out, n)
}

#[tactic(auto, unfolding(crate::specs::Spelling::number))]
pub(crate) fn put_8(out: &mut Vec<u8>, n: u64) -> Result<(), AllocError>
    ensures ok { OnOk result (out.new.items ≡ out.old.items ++ number 8 n) }
    ensures err { OnErr result (HasFront out.old.items (number 8 n) out.new.items) }
{
    put_u64(out, n)
}

// Appends bytes as they are.
pub(crate) fn put_part(out: &mut Vec<u8>, bytes: &[u8]) -> Result<(), AllocError>
    ensures ok { OnOk result (out.new.items ≡ out.old.items ++ bytes.now) }
    ensures err { OnErr result (HasFront out.old.items bytes.now out.new.items) }
{
    out.extend_from_slice(bytes)
}

// Appends what stands before a text, and the text.
#[tactic(auto, using(crate::proofs::Appended::appended))]
pub(crate) fn put_headed(out: &mut Vec<u8>, head: &[u8], text: &[u8]) -> Result<(), AllocError>
    ensures ok { OnOk result (out.new.items ≡ out.old.items ++ (head.now ++ text.now)) }
    ensures err { OnErr result (HasFront out.old.items (head.now ++ text.now) out.new.items) }
{
    put_part(out, head)?;
    put_part(out, text)
}

#[tactic(auto, using(crate::proofs::Appended::appended))]
pub(crate) fn put_text(out: &mut Vec<u8>, bytes: &[u8]) -> Result<(), AllocError>
    requires { FitsText bytes.now }
    ensures ok { OnOk result (out.new.items ≡ out.old.items ++ text bytes.now) }
    ensures err { OnErr result (HasFront out.old.items (text bytes.now) out.new.items) }
{
    put_2(out, bytes.len() as u16)?;
    put_part(out, bytes)
}
