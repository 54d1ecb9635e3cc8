// What a store tells of its heap, of its log and of how far it has come; its sides tell the same.
ghost use Rattle.std.specs.Prelude.{◌≡◌, ◌<◌, ◌≤◌, ◌^◌, length, slice_index, slice_index_or, IfOk};
ghost use Rattle.ken_model.specs.Layout.{StandsFor};
ghost use Rattle.ken_record.specs.Spelling.{base_bytes};
ghost use Rattle.ken_record.specs.Versions.{One};
ghost use Rattle.ken_store.specs.Numbers.{sender_index};
ghost use Rattle.ken_store.specs.Turning.{Turning};
ghost use Rattle.ken_store.specs.Turnovers.{base_of};

use crate::patching::PatchSide;
use crate::store::Store;
use crate::turning::TurnSide;
use ken_disk::Disk;
use ken_model::Value;
use std::alloc::{AllocError, Global};

impl<D: Disk> TurnSide<D> {
    /// A copy of the value that the heap stands for.
    pub fn value(&self, alloc: Global) -> Result<Value, AllocError>
        ensures value { IfOk result (λ v. v ≡ self.now.objects.value) }
        ensures stands { IfOk result (λ v. StandsFor self.now.objects.bytes v) }
    {
        self.objects.stands();
        self.objects.value(alloc)
    }

    /// How many records the current log holds.
    pub fn records(&self) -> u64
        ensures { result ≡ self.now.log.records }
    {
        self.log.records()
    }

    /// Which of the node's logs is the current one, from 1.
    pub fn generation(&self) -> u32
        ensures { result ≡ self.now.log.header.generation }
    {
        self.log.header().generation
    }

    /// Where the current log ends, in bytes.
    pub fn log_end(&self) -> u64
        ensures { result ≡ self.now.log.end }
    {
        self.log.end()
    }

    /// How many pages its heap has.
    pub fn pages(&self) -> u32
        ensures { result ≡ self.now.owner.pages }
    {
        self.owner.pages
    }

    /// The last turn that was sealed, 0 for none.
    pub fn turns(&self) -> u64
        ensures { result ≡ self.now.numbers.turns }
    {
        self.numbers.turns
    }

    /// The stamp of that turn, 0 for none.
    pub fn stamp(&self) -> u64
        ensures { result ≡ self.now.numbers.stamp }
    {
        self.numbers.stamp
    }

    /// The number of the last message that was consumed from a sender: a node, or 255 for the outside. It is 0 for none.
    pub fn consumed_from(&self, sender: u8) -> u64
        ensures { result ≡ slice_index_or self.now.numbers.consumed (sender_index sender) 0 }
    {
        self.numbers.consumed_from(sender)
    }

    /// The number of the last message that was sent to a node, 0 for none.
    pub fn sent_to(&self, node: u8) -> u64
        requires { node < 8 }
        ensures { result ≡ slice_index self.now.numbers.sent node }
    {
        self.numbers.sent[node as usize]
    }

    /// The number of the last output, 0 for none.
    pub fn outputs(&self) -> u64
        ensures { result ≡ self.now.numbers.outputs }
    {
        self.numbers.outputs
    }
}

impl<D: Disk> Store<D> {
    /// A copy of the value that the heap stands for.
    pub fn value(&self, alloc: Global) -> Result<Value, AllocError>
        ensures value { IfOk result (λ v. v ≡ self.now.turns.objects.value) }
        ensures stands { IfOk result (λ v. StandsFor self.now.turns.objects.bytes v) }
    {
        self.turns.value(alloc)
    }

    /// How many records the current log holds.
    pub fn records(&self) -> u64
        ensures { result ≡ self.now.turns.log.records }
    {
        self.turns.records()
    }

    /// Which of the node's logs is the current one, from 1.
    pub fn generation(&self) -> u32
        ensures { result ≡ self.now.turns.log.header.generation }
    {
        self.turns.generation()
    }

    /// Where the current log ends, in bytes.
    pub fn log_end(&self) -> u64
        ensures { result ≡ self.now.turns.log.end }
    {
        self.turns.log_end()
    }

    /// How many pages its heap has.
    pub fn pages(&self) -> u32
        ensures { result ≡ self.now.turns.owner.pages }
    {
        self.turns.pages()
    }

    /// The last turn that was sealed, 0 for none.
    pub fn turns(&self) -> u64
        ensures { result ≡ self.now.turns.numbers.turns }
    {
        self.turns.turns()
    }

    /// The stamp of that turn, 0 for none.
    pub fn stamp(&self) -> u64
        ensures { result ≡ self.now.turns.numbers.stamp }
    {
        self.turns.stamp()
    }

    /// The number of the last message that was consumed from a sender: a node, or 255 for the outside. It is 0 for none.
    pub fn consumed_from(&self, sender: u8) -> u64
        ensures { result ≡ slice_index_or self.now.turns.numbers.consumed (sender_index sender) 0 }
    {
        self.turns.consumed_from(sender)
    }

    /// The number of the last message that was sent to a node, 0 for none.
    pub fn sent_to(&self, node: u8) -> u64
        requires { node < 8 }
        ensures { result ≡ slice_index self.now.turns.numbers.sent node }
    {
        self.turns.sent_to(node)
    }

    /// The number of the last output, 0 for none.
    pub fn outputs(&self) -> u64
        ensures { result ≡ self.now.turns.numbers.outputs }
    {
        self.turns.outputs()
    }

    /// The length in bytes of the base that a turnover would write with these. It takes no memory.
    pub fn base_size(&self, settled: u64, acked: &[u64], emitted: u64) -> u64
        requires turning { Turning D.told D.size self.now.turns }
        requires end { self.now.turns.log.end ≤ 2 ^ 40 }
        ensures { result ≡ length (base_bytes One (base_of self.now.turns settled acked.now emitted)) }
    {
        self.turns.base_size(settled, acked, emitted)
    }
}

impl<D: Disk> PatchSide<D> {
    /// The last turn that it knows of, 0 for none.
    pub fn known(&self) -> u64
        ensures { result ≡ self.now.known }
    {
        self.known
    }

    /// How many pages its image has.
    pub fn pages(&self) -> u32
        ensures { result ≡ self.now.image.pages }
    {
        self.image.pages()
    }
}
