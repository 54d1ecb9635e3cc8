ghost use Rattle.std.specs.Prelude.{◌≡◌, ◌<◌, ◌^◌, nat_lt, ◌==◌, option_map, option_copied, OnOk, OnErr};
ghost use Rattle.std.specs.List.{position, find};
ghost use Rattle.ken_model.specs.declared.values.Block.{Block};
ghost use Rattle.ken_model.specs.Heap.{IsHeap, rounded, first_gap, with_block, with_bytes, without_block};
ghost use Rattle.ken_model.specs.KeyValue.{pair_of, is_key, at_space};

use crate::{Items, Octets, is_pair_of};
use std::alloc::AllocError;

/// A block of a heap.
#[derive(Debug, Drop)]
pub struct Block {
    /// The address of its first byte: a multiple of 16, at least 32.
    pub place: u64,
    pub bytes: Octets,
}

/// What a node's heap stands for. The places of its blocks rise.
#[derive(Debug, Drop)]
pub struct Value {
    /// The heap's size in bytes.
    pub size: u64,
    /// A number that the handler keeps.
    pub root: u64,
    pub blocks: Items<Block>,
}

impl Value {
    /// The place of a block of `len` bytes in the first gap that it fits into.
    pub(crate) fn first_gap(&self, len: usize) -> Option<u64>
        requires heap { IsHeap self.now }
        requires len { len < 2 ^ 63 }
        ensures { result ≡ first_gap self.now len }
    {
        let needed = rounded(len as u64);
        let mut from = 16;
        for block in self.blocks.as_slice() {
            if block.place >= from + 32 + needed {
                return Some(from + 16);
            }
            from = block.place + rounded(block.bytes.len() as u64);
        }
        if from + 16 + needed <= self.size {
            Some(from + 16)
        } else {
            None
        }
    }

    /// Puts a block among the others. After an error nothing has changed.
    #[tactic(auto, using(crate::proofs::Edits::insert_past, crate::proofs::Edits::index_within))]
    pub(crate) fn put(&mut self, block: Block) -> Result<(), AllocError>
        ensures ok { OnOk result (self.new ≡ record self.old { blocks = with_block block self.old.blocks }) }
        ensures err { OnErr result (self.new ≡ self.old) }
    {
        let index = self.index_past(block.place).unwrap_or(self.blocks.len());
        self.blocks.insert(index, block)
    }

    /// Takes the block at a place away.
    #[tactic(auto, using(crate::proofs::Edits::remove_first, crate::proofs::Edits::remove_none))]
    pub(crate) fn remove(&mut self, place: u64)
        ensures { self.new ≡ record self.old { blocks = without_block place self.old.blocks } }
    {
        if let Some(index) = self.index_of(place) {
            self.blocks.remove(index);
        }
    }

    /// Puts other bytes into the block at a place.
    #[tactic(auto, using(crate::proofs::Edits::rewrite_first, crate::proofs::Edits::rewrite_none))]
    pub(crate) fn rewrite(&mut self, place: u64, bytes: Octets)
        ensures { self.new ≡ record self.old { blocks = with_bytes place bytes self.old.blocks } }
    {
        if let Some(index) = self.index_of(place) {
            self.blocks.set(index, Block { place, bytes });
        }
    }

    /// The pair of a key.
    pub(crate) fn pair_of(&self, key: &[u8]) -> Option<&Block>
        ensures { option_copied result ≡ find (λ (b : Block). is_key key.now (at_space b.bytes)) self.now.blocks }
    {
        self.blocks
            .as_slice()
            .iter()
            .find(|block| is_pair_of(block.bytes.as_slice(), key))
    }

    /// The place of a key's pair.
    #[tactic(auto, using(crate::proofs::Edits::pair_found))]
    pub(crate) fn place_of_pair(&self, key: &[u8]) -> Option<u64>
        ensures { result ≡ option_map (λ (b : Block). b.place) (pair_of key.now self.now.blocks) }
    {
        match self.pair_of(key) {
            Some(pair) => Some(pair.place),
            None => None,
        }
    }

    /// How many blocks stand before the first past a place, where there is one.
    fn index_past(&self, place: u64) -> Option<usize>
        ensures { result ≡ position (λ (b : Block). nat_lt place b.place) self.now.blocks }
    {
        self.blocks
            .as_slice()
            .iter()
            .position(|block| place < block.place)
    }

    /// How many blocks stand before the one at a place, where there is one.
    fn index_of(&self, place: u64) -> Option<usize>
        ensures { result ≡ position (λ (b : Block). b.place == place) self.now.blocks }
    {
        self.blocks
            .as_slice()
            .iter()
            .position(|block| block.place == place)
    }
}

/// A length in bytes, below 2^63, rounded up to a multiple of 16: what a block of that many bytes covers from its place on.
pub fn rounded(len: u64) -> u64
    requires { len < 2 ^ 63 }
    ensures { result ≡ rounded len }
{
    (len + 15) / 16 * 16
}
