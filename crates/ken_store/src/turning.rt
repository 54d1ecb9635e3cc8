// The side of the handler.
ghost use Rattle.std.specs.Prelude.{◌≡◌, ℕ, ◌+◌, ◌≤◌, ◌<◌, ◌^◌, ◌++◌, ◌∷◌, [], None, true, length, vec_len, vec_capacity, OnOk, OnErr, IfOk, IsErrOf, IsSome};
ghost use Rattle.std.specs.Borrow.{sem};
ghost use Rattle.ken_record.specs.Grammar.{IsRecord};
ghost use Rattle.ken_record.specs.Versions.{One};
ghost use Rattle.ken_alloc.specs.Objects.{heap_in};
ghost use Rattle.ken_store.specs.Ahead.{frame_pages};
ghost use Rattle.ken_store.specs.Lending.{LendsHeap};
ghost use Rattle.ken_store.specs.Numbers.{follows, after_record};
ghost use Rattle.ken_store.specs.Turning.{
  Turning,
  KeepsLog,
  begun_on,
  undone,
  turn_pages,
  record_of,
  changed_pages,
  coming_record,
  AreChangedPages,
  IsSealed,
  IsUndone,
  IsStillBegun,
  IsSameNode,
  SealsOn,
  log_answer,
};

use crate::StoreFault;
use crate::disks::Which;
use crate::kept::Kept;
use crate::numbers::Numbers;
use crate::owner::Owner;
use ken_alloc::Objects;
use ken_disk::Disk;
use ken_frame::Frame;
use ken_log::{Log, SealFault};
use ken_record::Effects;
use std::alloc::{AllocError, Global};
use std::sync::Arc;

/// The side of the handler: the heap, and the logs that turns are sealed in.
#[derive(Debug, Drop)]
pub struct TurnSide<D> {
    pub(crate) alloc: Global,
    pub(crate) owner: Owner,
    pub(crate) log: Log<D>,
    // Which of the two logs this is.
    pub(crate) which: Which,
    // The disk of the other log.
    pub(crate) other: D,
    pub(crate) objects: Objects,
    // How far the node has come.
    pub(crate) numbers: Numbers,
    // For each page of the log's base the turn that last changed it.
    pub(crate) base_turns: Vec<u64>,
    // What is kept of the log's records, oldest first.
    pub(crate) records: Vec<Kept>,
}

impl<D: Disk> TurnSide<D> {
    /// Begins a turn on the heap, and makes room for its record. After an error no turn is begun, and all is as before.
    pub fn begin(&mut self) -> Result<(), AllocError>
        requires turning { Turning D.told D.size self.old }
        requires idle { self.old.objects.begun ≡ None }
        ensures begun { OnOk result (heap_in self.new.objects ≡ begun_on (heap_in self.old.objects)) }
        ensures none { OnErr result (self.new.objects ≡ self.old.objects) }
        ensures same { KeepsLog self.old self.new }
        ensures turning { Turning D.told D.size self.new }
    {
        self.records.reserve(1)?;
        self.objects.begin();
        Ok(())
    }

    /// The heap, for the turn that is begun.
    pub fn objects(&mut self) -> &mut Objects
        requires { IsSome self.old.objects.begun }
        ensures* writes_back { sem 𝓛 (LendsHeap D.row self.entry result) }
        ensures heap { result.now ≡ self.old.objects }
    {
        &mut self.objects
    }

    /// Takes the turn back, where one is begun: all bytes of the heap are as they were at `begin`. A side that took calls takes
    /// them, and one that is spent stays so.
    pub fn abort(&mut self)
        ensures undone { heap_in self.new.objects ≡ undone (heap_in self.old.objects) }
        ensures same { KeepsLog self.old self.new }
        ensures turning { Turning D.told D.size self.old → Turning D.told D.size self.new }
    {
        self.objects.abort();
    }

    /// Seals the turn that is begun: its effects and the pages that it changed become a record of the log, by the four calls
    /// of a seal. After Ok the turn is ended, and the answer is its number with those pages. After `Memory` it is taken back,
    /// and all is as before. After `Disk` it is in doubt which of the two a crash leaves: the turn is still begun, and the side
    /// takes no more seals. `Damaged` is never answered.
    pub fn seal(&mut self, effects: &Effects) -> Result<(u64, Vec<(u32, Arc<Frame>)>), StoreFault>
        requires turning { Turning D.told D.size self.old }
        requires begun { IsSome self.old.objects.begun }
        requires fits { IsRecord One (record_of (self.old.numbers.turns + 1) effects.now []) }
        requires follows { follows self.old.owner self.old.numbers (record_of (self.old.numbers.turns + 1) effects.now []) ≡ true }
        requires room { self.old.log.end + 1081844 ≤ 2 ^ 40 }
        ensures sealed { IfOk result (λ x. IsSealed effects.now self.old x.0 (frame_pages x.1.items) self.new) }
        ensures changed { IfOk result (λ x. AreChangedPages (turn_pages self.old).heap (frame_pages x.1.items)) }
        ensures undone { IsErrOf result StoreFault.Memory → IsUndone self.old self.new }
        ensures in_doubt { IsErrOf result StoreFault.Disk → IsStillBegun self.old self.new }
        ensures turning { OnOk result (Turning D.told D.size self.new) }
        ensures goes_on { IsErrOf result StoreFault.Memory → Turning D.told D.size self.new }
        ensures spent { IsErrOf result StoreFault.Disk → self.new.log.spent ≡ true }
        ensures log { SealsOn D.told D.faults D.fate (log_answer result) self.old.log.end (coming_record self.old effects.now) self.old.log.disk self.new.log.disk }
        ensures others { IsSameNode self.old self.new }
        ensures sound { (disk place : ℕ) → IsErrOf result (StoreFault.Damaged disk place) → ⊥ }
    {
        match self.seal_begun(effects) {
            Ok(frames) => Ok((self.numbers.turns, frames)),
            Err(SealFault::Disk) => Err(StoreFault::Disk),
            Err(SealFault::Memory) => {
                self.abort();
                Err(StoreFault::Memory)
            }
        }
    }

    // Seals the turn that is begun. After an error it is still begun.
    fn seal_begun(&mut self, effects: &Effects) -> Result<Vec<(u32, Arc<Frame>)>, SealFault>
        requires turning { Turning D.told D.size self.old }
        requires begun { IsSome self.old.objects.begun }
        requires fits { IsRecord One (record_of (self.old.numbers.turns + 1) effects.now []) }
        requires follows { follows self.old.owner self.old.numbers (record_of (self.old.numbers.turns + 1) effects.now []) ≡ true }
        requires room { self.old.log.end + 1081844 ≤ 2 ^ 40 }
        ensures sealed { IfOk result (λ frames. IsSealed effects.now self.old (self.old.numbers.turns + 1) (frame_pages frames.items) self.new) }
        ensures changed { IfOk result (λ frames. AreChangedPages (turn_pages self.old).heap (frame_pages frames.items)) }
        ensures begun { OnErr result (IsStillBegun self.old self.new) }
        ensures turning { OnOk result (Turning D.told D.size self.new) }
        ensures goes_on { IsErrOf result SealFault.Memory → Turning D.told D.size self.new }
        ensures spent { IsErrOf result SealFault.Disk → self.new.log.spent ≡ true }
        ensures log { SealsOn D.told D.faults D.fate result self.old.log.end (coming_record self.old effects.now) self.old.log.disk self.new.log.disk }
        ensures others { IsSameNode self.old self.new }
    {
        let (item, frames) = self.coming(effects)?;
        self.log
            .seal_turn(self.numbers.turns + 1, effects, &frames)?;
        self.keep(item, effects);
        Ok(frames)
    }

    // What is kept of the record of the turn that is begun, with its pages, and room for it. Nothing else changes.
    fn coming(&mut self, effects: &Effects) -> Result<(Kept, Vec<(u32, Arc<Frame>)>), AllocError>
        requires begun { IsSome self.old.objects.begun }
        requires turns { self.old.numbers.turns + 1 < 2 ^ 64 }
        ensures item { IfOk result (λ x. x.0 ≡ coming_record self.old effects.now) }
        ensures pages { IfOk result (λ x. frame_pages x.1.items ≡ changed_pages self.old.objects.begun self.old.objects.bytes) }
        ensures room { OnOk result (vec_len self.new.records < vec_capacity self.new.records) }
        ensures objects { heap_in self.new.objects ≡ heap_in self.old.objects }
        ensures same { KeepsLog self.old self.new }
    {
        self.records.reserve(1)?;
        let frames = self.objects.freeze()?;
        let item = Kept::sealed(self.alloc, self.numbers.turns + 1, effects, &frames)?;
        Ok((item, frames))
    }

    // Goes on with the turn that was sealed with these effects, and ends it. There is room for what is kept of its record.
    fn keep(&mut self, item: Kept, effects: &Effects)
        requires nodes { self.old.owner.nodes ≤ 8 }
        requires begun { IsSome self.old.objects.begun }
        requires turns { self.old.numbers.turns + 1 < 2 ^ 64 }
        requires follows { follows self.old.owner self.old.numbers (record_of (self.old.numbers.turns + 1) effects.now []) ≡ true }
        requires room { vec_len self.old.records < vec_capacity self.old.records }
        ensures records { self.new.records.items ≡ self.old.records.items ++ item ∷ [] }
        ensures numbers { self.new.numbers ≡ after_record self.old.numbers (record_of (self.old.numbers.turns + 1) effects.now []) }
        ensures objects { heap_in self.new.objects ≡ record (heap_in self.old.objects) { begun = None } }
        ensures log { self.new.log ≡ self.old.log }
        ensures base_turns { self.new.base_turns.items ≡ self.old.base_turns.items }
        ensures others { IsSameNode self.old self.new }
    {
        self.numbers.go_on(&self.owner, effects);
        self.records.push_reserved(item);
        self.objects.commit();
    }
}
