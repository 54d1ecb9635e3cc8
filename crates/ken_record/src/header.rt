ghost use Rattle.std.specs.Prelude.{◌≡◌, ◌++◌, ◌↔◌, IsTrue, OnOk, OnErr};
ghost use Rattle.ken_record.specs.Versions.{One};
ghost use Rattle.ken_record.specs.Spelling.{mark, place, past, header_bytes};
ghost use Rattle.ken_record.specs.Appending.{HasFront};
ghost use Rattle.ken_record.specs.Grammar.{IsHeader};
ghost use Rattle.ken_record.specs.Reading.{Gives, mark_at, place_at, past_at, header_at, is_sound_header};

use crate::RecordFault;
use crate::bytes::{put_1, put_4, put_8, u8_front, u32_front, u64_front};
use std::alloc::AllocError;

// `KENL`.
const NAME: u32 = 0x4b45_4e4c;

const VERSION: u8 = 1;

/// The head of a log.
#[derive(Clone, Copy, Debug, PartialEq, Eq)]
pub struct Header {
    pub node: u8,
    /// The nodes of the run.
    pub nodes: u8,
    /// The pages of the node's heap.
    pub pages: u32,
    /// Which of the node's logs this is, from 1.
    pub generation: u32,
    /// The turns before this log: none in generation 1.
    pub turns: u64,
    /// The length of the base that follows, in bytes: 0 in generation 1.
    pub base_len: u32,
}

impl Header {
    /// Whether it has a spelling.
    pub fn fits(&self) -> bool
        ensures { IsTrue result ↔ IsHeader self.now }
    {
        // What is read is in its type's range.
        let _node = self.node;
        let _nodes = self.nodes;
        let _pages = self.pages;
        let _generation = self.generation;
        let _turns = self.turns;
        let _base_len = self.base_len;
        self.is_sound()
    }

    fn is_sound(&self) -> bool
        ensures { result ≡ is_sound_header self.now }
    {
        self.generation > 0 && (self.generation != 1 || (self.turns == 0 && self.base_len == 0))
    }

    /// Appends its one spelling, 31 bytes. After an error a front of it may stand behind the bytes that `out` had.
    #[tactic(auto, using(crate::proofs::Appended::appended))]
    pub fn put(&self, out: &mut Vec<u8>) -> Result<(), AllocError>
        requires { IsHeader self.now }
        ensures ok { OnOk result (out.new.items ≡ out.old.items ++ header_bytes self.now) }
        ensures err { OnErr result (HasFront out.old.items (header_bytes self.now) out.new.items) }
    {
        put_mark(out)?;
        self.put_place(out)?;
        self.put_past(out)
    }

    #[tactic(auto, using(crate::proofs::Appended::appended))]
    fn put_place(&self, out: &mut Vec<u8>) -> Result<(), AllocError>
        ensures ok { OnOk result (out.new.items ≡ out.old.items ++ place self.now) }
        ensures err { OnErr result (HasFront out.old.items (place self.now) out.new.items) }
    {
        put_1(out, self.node)?;
        put_1(out, self.nodes)?;
        put_4(out, self.pages)?;
        put_4(out, self.generation)
    }

    #[tactic(auto, using(crate::proofs::Appended::appended))]
    fn put_past(&self, out: &mut Vec<u8>) -> Result<(), AllocError>
        ensures ok { OnOk result (out.new.items ≡ out.old.items ++ past self.now) }
        ensures err { OnErr result (HasFront out.old.items (past self.now) out.new.items) }
    {
        put_8(out, self.turns)?;
        put_4(out, self.base_len)?;
        put_4(out, 0)
    }
}

#[tactic(auto, using(crate::proofs::Appended::appended))]
fn put_mark(out: &mut Vec<u8>) -> Result<(), AllocError>
    ensures ok { OnOk result (out.new.items ≡ out.old.items ++ mark One) }
    ensures err { OnErr result (HasFront out.old.items (mark One) out.new.items) }
{
    put_4(out, NAME)?;
    put_1(out, VERSION)
}

#[tactic(auto, unfolding(crate::specs::Reading::mark_at))]
fn mark_front(bytes: &[u8]) -> Result<((u32, u8), &[u8]), RecordFault>
    ensures { Gives (λ x. (x.0, x.1.now)) result (mark_at bytes.now) }
{
    let (name, rest) = u32_front(bytes)?;
    let (version, rest) = u8_front(rest)?;
    Ok(((name, version), rest))
}

#[tactic(auto, unfolding(crate::specs::Reading::place_at))]
fn place_front(bytes: &[u8]) -> Result<((u8, (u8, (u32, u32))), &[u8]), RecordFault>
    ensures { Gives (λ x. (x.0, x.1.now)) result (place_at bytes.now) }
{
    let (node, rest) = u8_front(bytes)?;
    let (nodes, rest) = u8_front(rest)?;
    let (pages, rest) = u32_front(rest)?;
    let (generation, rest) = u32_front(rest)?;
    Ok(((node, (nodes, (pages, generation))), rest))
}

#[tactic(auto, unfolding(crate::specs::Reading::past_at))]
fn past_front(bytes: &[u8]) -> Result<((u64, (u32, u32)), &[u8]), RecordFault>
    ensures { Gives (λ x. (x.0, x.1.now)) result (past_at bytes.now) }
{
    let (turns, rest) = u64_front(bytes)?;
    let (base_len, rest) = u32_front(rest)?;
    let (zero, rest) = u32_front(rest)?;
    Ok(((turns, (base_len, zero)), rest))
}

// The header at the front of bytes.
#[tactic(auto, unfolding(crate::specs::Reading::header_at))]
pub(crate) fn header_front(bytes: &[u8]) -> Result<(Header, &[u8]), RecordFault>
    ensures { Gives (λ x. (x.0, x.1.now)) result (header_at bytes.now) }
{
    let ((name, version), rest) = mark_front(bytes)?;
    let ((node, (nodes, (pages, generation))), rest) = place_front(rest)?;
    let ((turns, (base_len, zero)), rest) = past_front(rest)?;
    let header = Header {
        node,
        nodes,
        pages,
        generation,
        turns,
        base_len,
    };
    if name == NAME && version == VERSION && zero == 0 && header.is_sound() {
        Ok((header, rest))
    } else {
        Err(RecordFault::Bad)
    }
}
