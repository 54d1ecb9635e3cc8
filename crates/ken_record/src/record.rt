ghost use Rattle.std.specs.Prelude.{◌≡◌, ◌++◌, ◌↔◌, length, IsTrue, OnOk, OnErr};
ghost use Rattle.ken_record.specs.Versions.{One};
ghost use Rattle.ken_record.specs.Spelling.{origin, lists, fields, record_bytes};
ghost use Rattle.ken_record.specs.Appending.{HasFront};
ghost use Rattle.ken_record.specs.Grammar.{IsRecord, HasLists};
ghost use Rattle.ken_record.specs.Reading.{Gives, origin_at, lists_at, fields_at, within, record_at, is_sound};

use crate::RecordFault;
use crate::bytes::{part_front, put_1, put_4, put_8, u8_front, u32_front, u64_front};
use crate::field::{at_most, counted_len, few_front, many_front, put_few, put_many};
use crate::out::{are_numbered, are_short};
use crate::page::Page;
use crate::rising::rise;
use crate::sent::Sent;
use ken_model::{Items, MAX_NODES, MAX_PAGES, OUTSIDE, Out, Shared};
use std::alloc::{AllocError, Global};

/// The most draws of a turn.
pub const MAX_DRAWS: usize = 16;

/// The most messages that a turn sends.
pub const MAX_SENDS: usize = 16;

/// The most outputs of a turn.
pub const MAX_OUTS: usize = 16;

/// The most bytes of a record after its length.
pub const MAX_FIELDS: usize = 1_081_838;

// The bytes of the fields before the lists.
pub(crate) const ORIGIN_LEN: usize = 25;

/// What a turn did.
#[derive(Debug, Drop)]
pub struct Record {
    /// The number of the turn, from 1.
    pub turn: u64,
    /// Its stamp, from 1.
    pub stamp: u64,
    /// The sender of the message that it took: a node, or 255 for the outside.
    pub from: u8,
    /// The number of that message, from 1.
    pub number: u64,
    pub draws: Shared<u64>,
    pub sends: Shared<Sent>,
    pub outs: Shared<Out>,
    /// The pages that it changed, rising strictly.
    pub pages: Items<Page>,
}

impl Record {
    /// Whether it has a spelling.
    pub fn fits(&self) -> bool
        ensures { IsTrue result ↔ IsRecord One self.now }
    {
        // What is read is in its type's range.
        let _turn = self.turn;
        let _stamp = self.stamp;
        let _number = self.number;
        self.is_sound() && self.lists_fit()
    }

    // Whether the fields are in range, but for what is within the lists.
    fn is_sound(&self) -> bool
        ensures { result ≡ is_sound self.now }
    {
        let turned = self.turn > 0 && self.stamp > 0;
        let sender = self.from < MAX_NODES || self.from == OUTSIDE;
        let numbered = self.number > 0 && are_numbered(self.outs.as_slice());
        turned && sender && numbered && rise(self.pages.as_slice())
    }

    fn lists_fit(&self) -> bool
        ensures { IsTrue result ↔ HasLists One self.now }
    {
        at_most(MAX_DRAWS, self.draws.as_slice())
            && at_most(MAX_SENDS, self.sends.as_slice())
            && self.outs.len() <= MAX_OUTS
            && are_short(self.outs.as_slice())
            && at_most(MAX_PAGES as usize, self.pages.as_slice())
    }

    /// Appends its one spelling: the length in four bytes, and so many bytes. After an error a front of it may stand behind
    /// the bytes that `out` had.
    #[tactic(auto, using(crate::proofs::Appended::appended, crate::proofs::Sizes::fields_fit))]
    pub fn put(&self, out: &mut Vec<u8>) -> Result<(), AllocError>
        requires { IsRecord One self.now }
        ensures ok { OnOk result (out.new.items ≡ out.old.items ++ record_bytes One self.now) }
        ensures err { OnErr result (HasFront out.old.items (record_bytes One self.now) out.new.items) }
    {
        put_4(out, self.fields_len() as u32)?;
        self.put_fields(out)
    }

    /// The bytes of its spelling: four of the length, and its fields.
    pub fn spelled_len(&self) -> usize
        requires { IsRecord One self.now }
        ensures { result ≡ length (record_bytes One self.now) }
    {
        4 + self.fields_len()
    }

    // The bytes of its fields.
    #[tactic(auto, using(crate::proofs::Sizes::fields_long))]
    fn fields_len(&self) -> usize
        requires { IsRecord One self.now }
        ensures { result ≡ length (fields One self.now) }
    {
        let draws = counted_len(1, self.draws.as_slice());
        let sends = counted_len(1, self.sends.as_slice());
        let outs = counted_len(1, self.outs.as_slice());
        let pages = counted_len(2, self.pages.as_slice());
        ORIGIN_LEN + draws + sends + outs + pages
    }

    #[tactic(auto, using(crate::proofs::Appended::appended))]
    fn put_fields(&self, out: &mut Vec<u8>) -> Result<(), AllocError>
        requires { IsRecord One self.now }
        ensures ok { OnOk result (out.new.items ≡ out.old.items ++ fields One self.now) }
        ensures err { OnErr result (HasFront out.old.items (fields One self.now) out.new.items) }
    {
        self.put_origin(out)?;
        self.put_lists(out)
    }

    #[tactic(auto, using(crate::proofs::Appended::appended))]
    fn put_origin(&self, out: &mut Vec<u8>) -> Result<(), AllocError>
        ensures ok { OnOk result (out.new.items ≡ out.old.items ++ origin self.now) }
        ensures err { OnErr result (HasFront out.old.items (origin self.now) out.new.items) }
    {
        put_8(out, self.turn)?;
        put_8(out, self.stamp)?;
        put_1(out, self.from)?;
        put_8(out, self.number)
    }

    #[tactic(auto, using(crate::proofs::Appended::appended))]
    fn put_lists(&self, out: &mut Vec<u8>) -> Result<(), AllocError>
        requires { HasLists One self.now }
        ensures ok { OnOk result (out.new.items ≡ out.old.items ++ lists self.now) }
        ensures err { OnErr result (HasFront out.old.items (lists self.now) out.new.items) }
    {
        put_few(out, self.draws.as_slice())?;
        put_few(out, self.sends.as_slice())?;
        put_few(out, self.outs.as_slice())?;
        put_many(out, self.pages.as_slice())
    }
}

#[tactic(auto, unfolding(crate::specs::Reading::origin_at))]
fn origin_front(bytes: &[u8]) -> Result<((u64, (u64, (u8, u64))), &[u8]), RecordFault>
    ensures { Gives (λ x. (x.0, x.1.now)) result (origin_at bytes.now) }
{
    let (turn, rest) = u64_front(bytes)?;
    let (stamp, rest) = u64_front(rest)?;
    let (from, rest) = u8_front(rest)?;
    let (number, rest) = u64_front(rest)?;
    Ok(((turn, (stamp, (from, number))), rest))
}

type Lists = (Shared<u64>, (Shared<Sent>, (Shared<Out>, Items<Page>)));

#[tactic(auto, unfolding(crate::specs::Reading::lists_at))]
fn lists_front(alloc: Global, bytes: &[u8]) -> Result<(Lists, &[u8]), RecordFault>
    ensures { Gives (λ x. (x.0, x.1.now)) result (lists_at bytes.now) }
{
    let (draws, rest) = few_front(alloc, MAX_DRAWS, bytes)?;
    let (sends, rest) = few_front(alloc, MAX_SENDS, rest)?;
    let (outs, rest) = few_front(alloc, MAX_OUTS, rest)?;
    let (pages, rest) = many_front(alloc, MAX_PAGES as usize, rest)?;
    Ok(((draws, (sends, (outs, pages))), rest))
}

#[tactic(auto, unfolding(crate::specs::Reading::fields_at))]
fn fields_front(alloc: Global, bytes: &[u8]) -> Result<(Record, &[u8]), RecordFault>
    ensures { Gives (λ x. (x.0, x.1.now)) result (fields_at One bytes.now) }
{
    let ((turn, (stamp, (from, number))), rest) = origin_front(bytes)?;
    let ((draws, (sends, (outs, pages))), rest) = lists_front(alloc, rest)?;
    let read = Record {
        turn,
        stamp,
        from,
        number,
        draws,
        sends,
        outs,
        pages,
    };
    if read.is_sound() && are_short(read.outs.as_slice()) {
        Ok((read, rest))
    } else {
        Err(RecordFault::Bad)
    }
}

// The fields in so many bytes, with nothing after them there.
#[tactic(auto, unfolding(crate::specs::Reading::within))]
fn fields_within(alloc: Global, len: usize, bytes: &[u8]) -> Result<(Record, &[u8]), RecordFault>
    ensures { Gives (λ x. (x.0, x.1.now)) result (within (fields_at One) len bytes.now) }
{
    let (part, rest) = part_front(bytes, len)?;
    let (read, after) = fields_front(alloc, part)?;
    if after.is_empty() {
        Ok((read, rest))
    } else {
        Err(RecordFault::Bad)
    }
}

// The record at the front of bytes.
#[tactic(auto, unfolding(crate::specs::Reading::record_at))]
pub(crate) fn record_front(alloc: Global, bytes: &[u8]) -> Result<(Record, &[u8]), RecordFault>
    ensures { Gives (λ x. (x.0, x.1.now)) result (record_at One bytes.now) }
{
    let (len, rest) = u32_front(bytes)?;
    let len = len as usize;
    if len > MAX_FIELDS {
        return Err(RecordFault::Bad);
    }
    fields_within(alloc, len, rest)
}
