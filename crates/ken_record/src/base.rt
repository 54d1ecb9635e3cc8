ghost use Rattle.std.specs.Prelude.{◌≡◌, ◌++◌, ◌<◌, ◌^◌, ◌↔◌, List, ℕ, length, drop, Some, IfOk, IsErrOf, OnOk, OnErr, IsTrue};
ghost use Rattle.std.specs.List.{flat_map};
ghost use Rattle.ken_record.specs.declared.base.Base.{Base};
ghost use Rattle.ken_record.specs.Versions.{One};
ghost use Rattle.ken_record.specs.Spelling.{number, counts, kept, base_bytes};
ghost use Rattle.ken_record.specs.Grammar.{IsBase, HasCounts, HasKept, base_rises};
ghost use Rattle.ken_record.specs.Appending.{HasFront};
ghost use Rattle.ken_record.specs.Reading.{Gives, counts_at, kept_at, base_at, within};

use crate::RecordFault;
use crate::bytes::{part_front, put_8, u64_front};
use crate::due::Due;
use crate::field::{
    at_most, counted_len, exactly, many_front, most_front, put_all, put_many, put_most, some,
};
use crate::page::Page;
use crate::rising::rise;
use ken_model::{Items, MAX_NODES, Out};
use std::alloc::{AllocError, Global};

/// Those whose messages a base counts: the nodes 0 to 7, and the outside.
pub const SENDERS: usize = 9;

// The most messages, and the most outputs: their counts have four bytes.
const MAX_KEPT: usize = 0xffff_ffff;

// The most pages: their count has two bytes.
const MOST_PAGES: usize = 0xffff;

// The bytes of the fields before the lists.
const COUNTS_LEN: usize = 152;

/// What a log that is not its node's first begins with: what the logs before it left, but for the heap's older pages.
#[derive(Debug, Drop)]
pub struct Base {
    /// The stamp of the last turn before this log.
    pub stamp: u64,
    /// The messages consumed from the nodes 0 to 7, whether of the run or not, and then from the outside.
    pub consumed: Items<u64>,
    /// The messages ever sent to the nodes 0 to 7, whether of the run or not.
    pub sent: Items<u64>,
    /// The outputs ever made.
    pub outputs: u64,
    /// The messages that are not acknowledged, rising strictly by the node that they go to and then by their numbers.
    pub messages: Items<Due>,
    /// The outputs that are not emitted, their numbers rising strictly.
    pub outs: Items<Out>,
    /// The pages of the heap that it holds, rising strictly.
    pub pages: Items<Page>,
}

impl Base {
    /// Whether it has a spelling.
    pub fn fits(&self) -> bool
        ensures { IsTrue result ↔ IsBase One self.now }
    {
        // What is read is in its type's range.
        let _stamp = self.stamp;
        let _outputs = self.outputs;
        self.counts_fit() && self.kept_fit() && self.rises()
    }

    fn counts_fit(&self) -> bool
        ensures { IsTrue result ↔ HasCounts One self.now }
    {
        exactly(SENDERS, self.consumed.as_slice())
            && exactly(usize::from(MAX_NODES), self.sent.as_slice())
    }

    fn kept_fit(&self) -> bool
        ensures { IsTrue result ↔ HasKept self.now }
    {
        at_most(MAX_KEPT, self.messages.as_slice())
            && at_most(MAX_KEPT, self.outs.as_slice())
            && at_most(MOST_PAGES, self.pages.as_slice())
    }

    // Whether its messages, outputs and pages rise strictly.
    fn rises(&self) -> bool
        ensures { result ≡ base_rises self.now }
    {
        rise(self.messages.as_slice()) && rise(self.outs.as_slice()) && rise(self.pages.as_slice())
    }

    /// The bytes of its spelling, 162 or more.
    #[tactic(auto, using(crate::proofs::Sizes::base_fields_long))]
    pub fn spelled_len(&self) -> usize
        requires { IsBase One self.now }
        ensures { result ≡ length (base_bytes One self.now) }
    {
        let messages = counted_len(4, self.messages.as_slice());
        let outs = counted_len(4, self.outs.as_slice());
        let pages = counted_len(2, self.pages.as_slice());
        COUNTS_LEN + messages + outs + pages
    }

    /// Appends its one spelling. After an error a front of it may stand behind the bytes that `out` had.
    #[tactic(auto, using(crate::proofs::Appended::appended))]
    pub fn put(&self, out: &mut Vec<u8>) -> Result<(), AllocError>
        requires { IsBase One self.now }
        ensures ok { OnOk result (out.new.items ≡ out.old.items ++ base_bytes One self.now) }
        ensures err { OnErr result (HasFront out.old.items (base_bytes One self.now) out.new.items) }
    {
        self.put_counts(out)?;
        self.put_kept(out)
    }

    #[tactic(auto, using(crate::proofs::Appended::appended))]
    fn put_counts(&self, out: &mut Vec<u8>) -> Result<(), AllocError>
        requires { HasCounts One self.now }
        ensures ok { OnOk result (out.new.items ≡ out.old.items ++ counts self.now) }
        ensures err { OnErr result (HasFront out.old.items (counts self.now) out.new.items) }
    {
        put_8(out, self.stamp)?;
        put_all(out, self.consumed.as_slice())?;
        put_all(out, self.sent.as_slice())?;
        put_8(out, self.outputs)
    }

    #[tactic(auto, using(crate::proofs::Appended::appended))]
    fn put_kept(&self, out: &mut Vec<u8>) -> Result<(), AllocError>
        requires { HasKept self.now }
        ensures ok { OnOk result (out.new.items ≡ out.old.items ++ kept self.now) }
        ensures err { OnErr result (HasFront out.old.items (kept self.now) out.new.items) }
    {
        put_most(out, self.messages.as_slice())?;
        put_most(out, self.outs.as_slice())?;
        put_many(out, self.pages.as_slice())
    }
}

type Counts = (u64, (Items<u64>, (Items<u64>, u64)));

#[tactic(auto, unfolding(crate::specs::Reading::counts_at))]
fn counts_front(alloc: Global, bytes: &[u8]) -> Result<(Counts, &[u8]), RecordFault>
    ensures { Gives (λ x. (x.0, x.1.now)) result (counts_at One bytes.now) }
{
    let (stamp, rest) = u64_front(bytes)?;
    let (consumed, rest) = some(alloc, SENDERS, rest)?;
    let (sent, rest) = some(alloc, usize::from(MAX_NODES), rest)?;
    let (outputs, rest) = u64_front(rest)?;
    Ok(((stamp, (consumed, (sent, outputs))), rest))
}

type Kept = (Items<Due>, (Items<Out>, Items<Page>));

#[tactic(auto, unfolding(crate::specs::Reading::kept_at))]
fn kept_front(alloc: Global, bytes: &[u8]) -> Result<(Kept, &[u8]), RecordFault>
    ensures { Gives (λ x. (x.0, x.1.now)) result (kept_at bytes.now) }
{
    let (messages, rest) = most_front(alloc, bytes)?;
    let (outs, rest) = most_front(alloc, rest)?;
    let (pages, rest) = many_front(alloc, MOST_PAGES, rest)?;
    Ok(((messages, (outs, pages)), rest))
}

// The base at the front of bytes.
#[tactic(auto, unfolding(crate::specs::Reading::base_at))]
pub(crate) fn base_front(alloc: Global, bytes: &[u8]) -> Result<(Base, &[u8]), RecordFault>
    ensures { Gives (λ x. (x.0, x.1.now)) result (base_at One bytes.now) }
{
    let ((stamp, (consumed, (sent, outputs))), rest) = counts_front(alloc, bytes)?;
    let ((messages, (outs, pages)), rest) = kept_front(alloc, rest)?;
    let read = Base {
        stamp,
        consumed,
        sent,
        outputs,
        messages,
        outs,
        pages,
    };
    if read.rises() {
        Ok((read, rest))
    } else {
        Err(RecordFault::Bad)
    }
}

// The base in so many bytes, with nothing after it there.
#[tactic(auto, unfolding(crate::specs::Reading::within))]
fn base_within(alloc: Global, len: usize, bytes: &[u8]) -> Result<(Base, &[u8]), RecordFault>
    ensures { Gives (λ x. (x.0, x.1.now)) result (within (base_at One) len bytes.now) }
{
    let (part, rest) = part_front(bytes, len)?;
    let (read, after) = base_front(alloc, part)?;
    if after.is_empty() {
        Ok((read, rest))
    } else {
        Err(RecordFault::Bad)
    }
}

/// The base in the first `len` bytes, as a header tells its length. `Bad` comes exactly where there are fewer bytes, or they
/// are not the spelling of one base. Takes time and memory by the bytes that are there.
pub fn decode_base(alloc: Global, len: u32, bytes: &[u8]) -> Result<Base, RecordFault>
    // What is read stands there as it is spelled, and nothing else does.
    ensures fits { IfOk result (λ base. IsBase One base) }
    ensures found { IfOk result (λ base. bytes.now ≡ base_bytes One base ++ drop len bytes.now) }
    ensures length { IfOk result (λ base. length (base_bytes One base) ≡ len) }
    // The same as one definition.
    ensures exact { Gives (λ base. (base, drop len bytes.now)) result (within (base_at One) len bytes.now) }
    ensures bad { IsErrOf result RecordFault.Bad
        → (base : Base) (rest : List ℕ) → IsBase One base → length (base_bytes One base) ≡ len
        → bytes.now ≡ base_bytes One base ++ rest → ⊥ }
{
    let (base, _) = base_within(alloc, len as usize, bytes)?;
    Ok(base)
}
