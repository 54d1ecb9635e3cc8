// Numbers and texts at the front of bytes.
ghost use Rattle.std.specs.Prelude.{◌≡◌};
ghost use Rattle.ken_record.specs.Reading.{number_at, part_at, text_at};
ghost use Rattle.ken_packet.specs.Reading.{Shows, head_at, counts_at, body_at};

use ken_model::MAX_TEXT;
use ken_num::{u8_at, u16_at, u64_at};

#[tactic(auto, unfolding(ken_record::specs::Reading::number_at))]
#[inline(always)]
fn u8_front(bytes: &[u8]) -> Option<(u8, &[u8])>
    ensures { Shows (λ x. (x.0, x.1.now)) result (number_at 1 bytes.now) }
{
    match u8_at(bytes, 0) {
        Some(number) => Some((number, &bytes[1..])),
        None => None,
    }
}

#[tactic(auto, unfolding(ken_record::specs::Reading::number_at))]
#[inline(always)]
fn u16_front(bytes: &[u8]) -> Option<(u16, &[u8])>
    ensures { Shows (λ x. (x.0, x.1.now)) result (number_at 2 bytes.now) }
{
    match u16_at(bytes, 0) {
        Some(number) => Some((number, &bytes[2..])),
        None => None,
    }
}

#[tactic(auto, unfolding(ken_record::specs::Reading::number_at))]
#[inline(always)]
pub(crate) fn u64_front(bytes: &[u8]) -> Option<(u64, &[u8])>
    ensures { Shows (λ x. (x.0, x.1.now)) result (number_at 8 bytes.now) }
{
    match u64_at(bytes, 0) {
        Some(number) => Some((number, &bytes[8..])),
        None => None,
    }
}

// So many bytes, and those after them.
#[tactic(auto, unfolding(ken_record::specs::Reading::part_at))]
#[inline(always)]
fn part_front(bytes: &[u8], len: usize) -> Option<(&[u8], &[u8])>
    ensures { Shows (λ x. (x.0.now, x.1.now)) result (part_at len bytes.now) }
{
    if bytes.len() < len {
        return None;
    }
    Some(bytes.split_at(len))
}

#[tactic(auto, unfolding(ken_record::specs::Reading::text_at))]
#[inline(always)]
fn text_front(bytes: &[u8]) -> Option<(&[u8], &[u8])>
    ensures { Shows (λ x. (x.0.now, x.1.now)) result (text_at bytes.now) }
{
    let (len, rest) = u16_front(bytes)?;
    let len = usize::from(len);
    if len > MAX_TEXT {
        return None;
    }
    part_front(rest, len)
}

// The kind and the two ends of a packet.
#[tactic(auto, unfolding(crate::specs::Reading::head_at))]
#[inline(always)]
pub(crate) fn head_front(bytes: &[u8]) -> Option<((u8, (u8, u8)), &[u8])>
    ensures { Shows (λ x. (x.0, x.1.now)) result (head_at bytes.now) }
{
    let (kind, rest) = u8_front(bytes)?;
    let (from, rest) = u8_front(rest)?;
    let (to, rest) = u8_front(rest)?;
    Some(((kind, (from, to)), rest))
}

#[tactic(auto, unfolding(crate::specs::Reading::counts_at))]
#[inline(always)]
fn counts_front(bytes: &[u8]) -> Option<((u64, u64), &[u8])>
    ensures { Shows (λ x. (x.0, x.1.now)) result (counts_at bytes.now) }
{
    let (number, rest) = u64_front(bytes)?;
    let (stamp, rest) = u64_front(rest)?;
    Some(((number, stamp), rest))
}

// The number, the stamp and the bytes of a message.
#[tactic(auto, unfolding(crate::specs::Reading::body_at))]
#[inline(always)]
pub(crate) fn body_front(bytes: &[u8]) -> Option<(((u64, u64), &[u8]), &[u8])>
    ensures { Shows (λ x. ((x.0.0, x.0.1.now), x.1.now)) result (body_at bytes.now) }
{
    let (counts, rest) = counts_front(bytes)?;
    let (text, rest) = text_front(rest)?;
    Some(((counts, text), rest))
}
