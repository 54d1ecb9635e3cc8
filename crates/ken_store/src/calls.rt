// Calls of a whole store: each is one of its sides', and a seal hands its pages over.
ghost use Rattle.std.specs.Prelude.{◌≡◌, ◌≢◌, ℕ, ◌↔◌, ◌+◌, ◌*◌, ◌<◌, ◌≤◌, ◌^◌, length, [], ◌∷◌, List, None, Some, true, IsTrue, IsSome, OnOk, OnErr, IfOk, IfErr, IsErrOf};
ghost use Rattle.std.specs.Borrow.{sem};
ghost use Rattle.ken_disk.specs.Causes.{HasCause};
ghost use Rattle.ken_disk.specs.Fates.{Suffers};
ghost use Rattle.ken_disk.specs.Story.{Tells, Follows};
ghost use Rattle.ken_model.specs.declared.values.Value.{Value};
ghost use Rattle.ken_model.specs.Reading.{read_value};
ghost use Rattle.ken_alloc.specs.Objects.{heap_in};
ghost use Rattle.ken_record.specs.declared.page.Page.{Page};
ghost use Rattle.ken_record.specs.Grammar.{IsRecord};
ghost use Rattle.ken_record.specs.Versions.{One};
ghost use Rattle.ken_cover.specs.Covers.{MayLeaveOut};
ghost use Rattle.ken_cover.specs.Sides.{ImagePages, handed_pages, synced_pages};
ghost use Rattle.ken_image.specs.Calls.{Sync, Called};
ghost use Rattle.ken_store.specs.Answers.{disks_in};
ghost use Rattle.ken_store.specs.Lending.{LendsStoreHeap};
ghost use Rattle.ken_store.specs.Numbers.{follows};
ghost use Rattle.ken_store.specs.Patching.{GoesOnBy, IsFaultOfCall, KeepsAhead, PatchesBy, PatchSuffers, SettlesBy, disk_answer, patch_calls, settled_turn};
ghost use Rattle.ken_store.specs.Recovered.{Whole};
ghost use Rattle.ken_store.specs.Standing.{IsStore, RecoversMeanwhile, Standing, StandsSealed, TakesCalls, is_either, is_one, sealed_recovery};
ghost use Rattle.ken_store.specs.Turnovers.{BeginsWith, IsTurned, IsUnturned, ReplacesOn, base_of, kept_disk, replaced_disk, without_told};
ghost use Rattle.ken_record.specs.Spelling.{base_bytes};
ghost use Rattle.ken_log.specs.Formats.{next_header};
ghost use Rattle.ken_store.specs.Turning.{
  AreChangedPages,
  IsSameNode,
  IsSealed,
  IsStillBegun,
  IsUndone,
  KeepsLog,
  SealsOn,
  begun_on,
  coming_record,
  log_answer,
  record_of,
  state_in,
  turn_pages,
  undone,
};

use crate::StoreFault;
use crate::store::Store;
use ken_alloc::Objects;
use ken_disk::Disk;
use ken_record::Effects;
use std::alloc::AllocError;

impl<D: Disk> Store<D> {
    /// Begins a turn on the heap. After an error no turn is begun, and all is as before.
    pub fn begin(&mut self) -> Result<(), AllocError>
        requires takes { TakesCalls D.told D.size self.old }
        requires idle { self.old.turns.objects.begun ≡ None }
        ensures begun { OnOk result (heap_in self.new.turns.objects ≡ begun_on (heap_in self.old.turns.objects)) }
        ensures none { OnErr result (self.new.turns.objects ≡ self.old.turns.objects) }
        ensures log { KeepsLog self.old.turns self.new.turns }
        ensures patches { self.new.patches ≡ self.old.patches }
        ensures takes { TakesCalls D.told D.size self.new }
        ensures stands { (i : ImagePages) → Standing D.told D.size self.old i → Standing D.told D.size self.new i }
    {
        self.turns.begin()
    }

    /// The heap, for the turn that is begun.
    pub fn objects(&mut self) -> &mut Objects
        requires { IsSome self.old.turns.objects.begun }
        ensures* writes_back { sem 𝓛 (LendsStoreHeap D.row self.entry result) }
        ensures heap { result.now ≡ self.old.turns.objects }
    {
        self.turns.objects()
    }

    /// Takes the turn back, where one is begun: all bytes of the heap are as they were at `begin`. A store that took calls takes
    /// them, and one that is spent stays so.
    pub fn abort(&mut self)
        ensures undone { heap_in self.new.turns.objects ≡ undone (heap_in self.old.turns.objects) }
        ensures log { KeepsLog self.old.turns self.new.turns }
        ensures patches { self.new.patches ≡ self.old.patches }
        ensures takes { TakesCalls D.told D.size self.old → TakesCalls D.told D.size self.new }
        ensures stands { (i : ImagePages) → Standing D.told D.size self.old i → Standing D.told D.size self.new i }
    {
        self.turns.abort();
    }

    /// Seals the turn that is begun, by the four calls of a seal: the answer is its number. A crash at any moment leaves disks that
    /// recover to the state before it, or to the one with the turn and exactly the pages that it changed. After `Memory` the turn is
    /// taken back, and no crash leaves it. After `Disk` it is in doubt, and the store is to be released. `Damaged` is never answered.
    pub fn seal(&mut self, effects: &Effects) -> Result<u64, StoreFault>
        requires takes { TakesCalls D.told D.size self.old }
        requires begun { IsSome self.old.turns.objects.begun }
        requires fits { IsRecord One (record_of (self.old.turns.numbers.turns + 1) effects.now []) }
        requires follows { follows self.old.turns.owner self.old.turns.numbers (record_of (self.old.turns.numbers.turns + 1) effects.now []) ≡ true }
        requires room { self.old.turns.log.end + 1081844 ≤ 2 ^ 40 }
        ensures sealed { IfOk result (λ turn. StandsSealed D.told D.size effects.now turn self.old self.new) }
        ensures undone { IsErrOf result StoreFault.Memory → IsUndone self.old.turns self.new.turns }
        ensures in_doubt { IsErrOf result StoreFault.Disk → IsStillBegun self.old.turns self.new.turns }
        ensures takes { OnOk result (TakesCalls D.told D.size self.new) }
        ensures goes_on { IsErrOf result StoreFault.Memory → TakesCalls D.told D.size self.new }
        ensures stands { (i : ImagePages) → Standing D.told D.size self.old i → IsErrOf result StoreFault.Memory → Standing D.told D.size self.new i }
        ensures spent { IsErrOf result StoreFault.Disk → self.new.turns.log.spent ≡ true }
        ensures any_moment { (i : ImagePages) (v : Value) → Standing D.told D.size self.old i
            → read_value (turn_pages self.old.turns).heap ≡ Some v
            → RecoversMeanwhile D.told self.old.turns.owner (disks_in self.old) (disks_in self.new)
            (is_either (Whole (state_in self.old.turns) v)
            (sealed_recovery effects.now self.old self.old.turns.objects.value)) }
        ensures memory { (i : ImagePages) (v : Value) → Standing D.told D.size self.old i
            → read_value (turn_pages self.old.turns).heap ≡ Some v → IsErrOf result StoreFault.Memory
            → RecoversMeanwhile D.told self.old.turns.owner (disks_in self.old) (disks_in self.new)
            (is_one (Whole (state_in self.old.turns) v)) }
        ensures log { SealsOn D.told D.faults D.fate (log_answer result) self.old.turns.log.end (coming_record self.old.turns effects.now) self.old.turns.log.disk self.new.turns.log.disk }
        ensures others { IsSameNode self.old.turns self.new.turns }
        ensures image { self.new.patches.image ≡ self.old.patches.image }
        ensures unhanded { OnErr result (KeepsAhead self.old.patches self.new.patches) }
        ensures sound { (disk place : ℕ) → IsErrOf result (StoreFault.Damaged disk place) → ⊥ }
    {
        self.turns.objects.stands();
        if self.patches.reserve(1).is_err() {
            self.turns.abort();
            return Err(StoreFault::Memory);
        }
        let (turn, pages) = self.turns.seal(effects)?;
        self.patches.hand(turn, pages);
        Ok(turn)
    }

    /// Goes over to a log of the next generation on the disk of the other log, by the six calls of a turnover: a base takes the
    /// place of the records. `settled` is a turn that was told as settled, 0 for none; `acked` has for each node of the run the
    /// largest message that it acknowledged; `emitted` is the last output that was emitted. The base has the messages and outputs
    /// above these, and the pages that last changed after the settled turn. A crash at any moment leaves disks that recover to the
    /// state before it, or to the same without what was told. After `Memory` the store goes on as before. After `Disk` it is in
    /// doubt, and the store is to be released. `Damaged` is never answered.
    pub fn turnover(&mut self, settled: u64, acked: &[u64], emitted: u64) -> Result<(), StoreFault>
        requires takes { TakesCalls D.told D.size self.old }
        requires idle { self.old.turns.objects.begun ≡ None }
        requires generation { self.old.turns.log.header.generation + 1 < 2 ^ 32 }
        requires length { length (base_bytes One (base_of self.old.turns settled acked.now emitted)) < 2 ^ 32 }
        ensures turned { OnOk result (IsTurned settled acked.now emitted self.old.turns self.new.turns) }
        ensures end { OnOk result (BeginsWith (length (base_bytes One (base_of self.old.turns settled acked.now emitted))) self.old.turns self.new.turns) }
        ensures unturned { OnErr result (IsUnturned self.old.turns self.new.turns) }
        ensures takes { OnOk result (TakesCalls D.told D.size self.new) }
        ensures goes_on { IsErrOf result StoreFault.Memory → TakesCalls D.told D.size self.new }
        ensures stands { (i : ImagePages) → Standing D.told D.size self.old i → MayLeaveOut settled (turn_pages self.old.turns) i → OnOk result (Standing D.told D.size self.new i) }
        ensures still { (i : ImagePages) → Standing D.told D.size self.old i → IsErrOf result StoreFault.Memory → Standing D.told D.size self.new i }
        ensures any_moment { (i : ImagePages) (v : Value) → Standing D.told D.size self.old i
            → MayLeaveOut settled (turn_pages self.old.turns) i → read_value (turn_pages self.old.turns).heap ≡ Some v
            → RecoversMeanwhile D.told self.old.turns.owner (disks_in self.old) (disks_in self.new)
            (is_either (Whole (state_in self.old.turns) v)
            (Whole (without_told acked.now emitted (state_in self.old.turns)) v)) }
        ensures spent { IsErrOf result StoreFault.Disk → self.new.turns.log.spent ≡ true }
        ensures log { ReplacesOn D.told D.faults D.fate (log_answer result)
            (next_header self.old.turns.log (base_of self.old.turns settled acked.now emitted))
            (base_of self.old.turns settled acked.now emitted) self.old.turns.other
            (replaced_disk result self.new.turns) }
        ensures own { kept_disk result self.new.turns ≡ self.old.turns.log.disk }
        ensures patches { self.new.patches ≡ self.old.patches }
        ensures sound { (disk place : ℕ) → IsErrOf result (StoreFault.Damaged disk place) → ⊥ }
    {
        self.turns.turnover(settled, acked, emitted)
    }

    /// Writes the next page of the oldest record that is to patch, by one call of the image's disk: false exactly where there is
    /// none, and then no call is made. A crash at any moment leaves disks that recover to the same state. After `Disk` the page
    /// counts as written, and is no longer to patch; the store is to be released, and no call follows. After `Memory`
    /// nothing has changed.
    pub fn patch_next(&mut self) -> Result<bool, StoreFault>
        requires { TakesCalls D.told D.size self.old }
        ensures stands { (i : ImagePages) → Standing D.told D.size self.old i → PatchesBy (D.told self.new.patches.image.disk) result (Standing D.told D.size self.new) i }
        ensures recovers { (i : ImagePages) (v : Value) → Standing D.told D.size self.old i
            → read_value (turn_pages self.old.turns).heap ≡ Some v
            → RecoversMeanwhile D.told self.old.turns.owner (disks_in self.old) (disks_in self.new)
            (is_one (Whole (state_in self.old.turns) v)) }
        ensures turns { self.new.turns ≡ self.old.turns }
        ensures more { IfOk result (λ more. IsTrue more ↔ (self.old.patches.ahead.items ≢ [])) }
        ensures ahead { GoesOnBy result self.old.patches.ahead.items self.new.patches.ahead.items }
        ensures known { self.new.patches.known ≡ self.old.patches.known }
        ensures takes { OnOk result (TakesCalls D.told D.size self.new) }
        ensures goes_on { IsErrOf result StoreFault.Memory → TakesCalls D.told D.size self.new }
        ensures fails { OnErr result (Tells (D.told self.new.patches.image.disk) (λ h. IsStore D.told D.size self.new)) }
        ensures spent { IsErrOf result StoreFault.Disk → self.new.patches.image.spent ≡ true }
        ensures calls { Follows (Called (disk_answer result) (patch_calls self.old.patches.ahead.items)) (D.told self.old.patches.image.disk) (D.told self.new.patches.image.disk) }
        ensures sound { IfErr result IsFaultOfCall }
        ensures cause { HasCause (D.faults self.old.patches.image.disk) (D.faults self.new.patches.image.disk) (disk_answer result) }
        ensures fate { Follows (PatchSuffers result) (D.fate self.old.patches.image.disk) (D.fate self.new.patches.image.disk) }
    {
        self.patches.patch_next()
    }

    /// Syncs the image, by one call of its disk, and tells through which turn all pages are safe there: the last turn before the
    /// oldest record that is to patch, 0 where that is a base, and the last turn where nothing is to patch. A crash at any moment
    /// leaves disks that recover to the same state. After an error nothing more is safe than before, and after `Disk` the store is to
    /// be released, and no call follows.
    pub fn settle(&mut self) -> Result<u64, StoreFault>
        requires { TakesCalls D.told D.size self.old }
        ensures told { IfOk result (λ turn. turn ≡ settled_turn self.old.patches.known self.old.patches.ahead.items) }
        ensures ahead { KeepsAhead self.old.patches self.new.patches }
        ensures clean { (i : ImagePages) → Standing D.told D.size self.old i → IfOk result (λ turn. MayLeaveOut turn (turn_pages self.new.turns) (synced_pages i)) }
        ensures stands { (i : ImagePages) → Standing D.told D.size self.old i → SettlesBy (D.told self.new.patches.image.disk) result (Standing D.told D.size self.new) i }
        ensures recovers { (i : ImagePages) (v : Value) → Standing D.told D.size self.old i
            → read_value (turn_pages self.old.turns).heap ≡ Some v
            → RecoversMeanwhile D.told self.old.turns.owner (disks_in self.old) (disks_in self.new)
            (is_one (Whole (state_in self.old.turns) v)) }
        ensures turns { self.new.turns ≡ self.old.turns }
        ensures takes { OnOk result (TakesCalls D.told D.size self.new) }
        ensures goes_on { IsErrOf result StoreFault.Memory → TakesCalls D.told D.size self.new }
        ensures fails { OnErr result (Tells (D.told self.new.patches.image.disk) (λ h. IsStore D.told D.size self.new)) }
        ensures spent { IsErrOf result StoreFault.Disk → self.new.patches.image.spent ≡ true }
        ensures calls { Follows (Called (disk_answer result) (Sync ∷ [])) (D.told self.old.patches.image.disk) (D.told self.new.patches.image.disk) }
        ensures sound { IfErr result IsFaultOfCall }
        ensures cause { HasCause (D.faults self.old.patches.image.disk) (D.faults self.new.patches.image.disk) (disk_answer result) }
        ensures fate { Follows (Suffers (disk_answer result)) (D.fate self.old.patches.image.disk) (D.fate self.new.patches.image.disk) }
    {
        self.patches.settle()
    }
}
