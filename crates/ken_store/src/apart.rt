// The two sides of a store, each for a thread of its own. What a call of one of them keeps of the two together is said by laws, the
// contracts of functions that do nothing.
ghost use Rattle.std.specs.Prelude.{◌≡◌, []};
ghost use Rattle.ken_cover.specs.Sides.{ImagePages};
ghost use Rattle.ken_store.specs.Apart.{
  Apart,
  BeginKeepsApart,
  WorkKeepsApart,
  AbortKeepsApart,
  TurnKeepsApart,
  SealKeepsApart,
  TurnoverKeepsApart,
  WaitingMayBeHanded,
  HandKeepsApart,
  RoomKeepsApart,
  PatchKeepsApart,
  SyncKeepsApart,
  PatchesAreBehind,
  WaitingKeepsSettled,
  ToldIsSettled,
  ToldIsSealed,
  SealKeepsTold,
  PatchKeepsTold,
  SyncKeepsTold,
  ApartRecovers,
  PatchRecoversApart,
  SyncRecoversApart,
  SealRecoversApart,
  UnsealedRecoversApart,
  TurnoverRecoversApart,
  WorkMayBeUndone,
  WorkStandsUndone,
};
ghost use Rattle.ken_store.specs.Patching.{TakesPatches};
ghost use Rattle.ken_store.specs.Standing.{Standing, TakesCalls};
ghost use Rattle.ken_store.specs.Turning.{Turning};

use crate::patching::PatchSide;
use crate::store::Store;
use crate::turning::TurnSide;
use ken_disk::Disk;

impl<D: Disk> Store<D> {
    /// The handler's side and the patcher's, each to be called on its own. Nothing waits to be handed.
    pub fn split(self) -> (TurnSide<D>, PatchSide<D>)
        ensures parts { result ≡ (self.turns, self.patches) }
        ensures apart { (i : ImagePages) → Standing D.told D.size self i → Apart D.told D.size result.0 result.1 [] i }
    {
        (self.turns, self.patches)
    }

    /// One store of two sides. It takes calls where both sides do and the patcher's was handed all records that the handler's sealed;
    /// where one of them is spent, the store is to be released.
    pub fn join(turns: TurnSide<D>, patches: PatchSide<D>) -> Store<D>
        ensures turns { result.turns ≡ turns }
        ensures patches { result.patches ≡ patches }
        ensures takes { Turning D.told D.size turns → TakesPatches D.told D.size patches
            → patches.image.pages ≡ turns.owner.pages → patches.known ≡ turns.numbers.turns
            → TakesCalls D.told D.size result }
        ensures stands { (i : ImagePages) → Apart D.told D.size turns patches [] i → Standing D.told D.size result i }
    {
        Store { turns, patches }
    }
}

/// A turn that is begun keeps the two sides of a store together.
pub fn begin_keeps_apart<D: Disk>()
    ensures { BeginKeepsApart D.told D.size }
{}

/// So does what it does to the heap.
pub fn work_keeps_apart<D: Disk>()
    ensures { WorkKeepsApart D.told D.size }
{}

/// So does an abort.
pub fn abort_keeps_apart<D: Disk>()
    ensures { AbortKeepsApart D.told D.size }
{}

/// So does any call of the handler's side that leaves its pages and numbers as they are, as a seal that runs out of memory.
pub fn turn_keeps_apart<D: Disk>()
    ensures { TurnKeepsApart D.told D.size }
{}

/// So does a seal, whose record waits then.
pub fn seal_keeps_apart<D: Disk>()
    ensures { SealKeepsApart D.told D.size }
{}

/// So does a turnover with what may be left out once all that waits is handed.
pub fn turnover_keeps_apart<D: Disk>()
    ensures { TurnoverKeepsApart D.told D.size }
{}

/// The first record that waits is one that the patcher's side may be handed.
pub fn waiting_may_be_handed<D: Disk>()
    ensures { WaitingMayBeHanded D.told D.size }
{}

/// Its handing keeps the two together.
pub fn hand_keeps_apart<D: Disk>()
    ensures { HandKeepsApart D.told D.size }
{}

/// So does what leaves the image's pages as they are: room that is made, a call that ran out of memory, or a sync that
/// failed.
pub fn room_keeps_apart<D: Disk>()
    ensures { RoomKeepsApart D.told D.size }
{}

/// So does a page that is written.
pub fn patch_keeps_apart<D: Disk>()
    ensures { PatchKeepsApart D.told D.size }
{}

/// So does a sync.
pub fn sync_keeps_apart<D: Disk>()
    ensures { SyncKeepsApart D.told D.size }
{}

/// What is to patch is behind the live records, also before what waits is handed.
pub fn patches_are_behind<D: Disk>()
    ensures { PatchesAreBehind D.told D.size }
{}

/// What a base may leave out after a sync it may leave out too once all that waits is handed.
pub fn waiting_keeps_settled<D: Disk>()
    ensures { WaitingKeepsSettled D.told D.size }
{}

/// So it is with the turn that a sync tells.
pub fn told_is_settled<D: Disk>()
    ensures { ToldIsSettled D.told D.size }
{}

/// It is no later than the last sealed turn.
pub fn told_is_sealed<D: Disk>()
    ensures { ToldIsSealed D.told D.size }
{}

/// A turn that was told as settled may be left out also after a seal.
pub fn seal_keeps_told<D: Disk>()
    ensures { SealKeepsTold D.told D.size }
{}

/// And once a page is written.
pub fn patch_keeps_told<D: Disk>()
    ensures { PatchKeepsTold D.told D.size }
{}

/// And after a sync.
pub fn sync_keeps_told<D: Disk>()
    ensures { SyncKeepsTold D.told D.size }
{}

/// Each image that a crash may leave of the disks of two sides that are apart recovers to what the handler's log tells, and to the
/// value of the heap after its sealed turns, however many records wait to be handed.
pub fn apart_recovers<D: Disk>()
    ensures { ApartRecovers D.told D.size }
{}

/// So does each image that a crash leaves at any moment of a patch.
pub fn patch_recovers_apart<D: Disk>()
    ensures { PatchRecoversApart D.told D.size }
{}

/// And of a sync.
pub fn sync_recovers_apart<D: Disk>()
    ensures { SyncRecoversApart D.told D.size }
{}

/// At any moment of a seal they recover to that, or to it with the turn and with the value of the heap that the turn left.
pub fn seal_recovers_apart<D: Disk>()
    ensures { SealRecoversApart D.told D.size }
{}

/// At any moment of a call of the handler's side that leaves the log's records as they are, they recover to that alone.
pub fn unsealed_recovers_apart<D: Disk>()
    ensures { UnsealedRecoversApart D.told D.size }
{}

/// At any moment of a turnover they recover to that, or to it without the messages and outputs that were told.
pub fn turnover_recovers_apart<D: Disk>()
    ensures { TurnoverRecoversApart D.told D.size }
{}

/// Where a turn is begun on a side that takes calls, the side takes calls once the turn is taken back, with the pages and the heap of
/// the begin: whatever the turn did to the heap that was lent to it, if only it is still begun.
pub fn work_may_be_undone<D: Disk>()
    ensures { WorkMayBeUndone D.told D.size }
{}

/// And a store stands as it did.
pub fn work_stands_undone<D: Disk>()
    ensures { WorkStandsUndone D.told D.size }
{}
