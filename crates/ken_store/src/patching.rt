// The side of the patcher.
ghost use Rattle.std.specs.Prelude.{◌≡◌, ◌≢◌, ◌↔◌, ◌+◌, ◌*◌, ◌<◌, ◌≤◌, [], ◌∷◌, take, true, IsTrue, OnOk, OnErr, IfOk, IfErr, IsErrOf};
ghost use Rattle.std.specs.VecDeque.{deque_len, deque_capacity};
ghost use Rattle.ken_disk.specs.Causes.{HasCause};
ghost use Rattle.ken_disk.specs.Fates.{Suffers};
ghost use Rattle.ken_disk.specs.Moments.{Through};
ghost use Rattle.ken_disk.specs.Story.{Tells, Follows};
ghost use Rattle.ken_record.specs.Grammar.{rise_from, page_rank};
ghost use Rattle.ken_cover.specs.Covers.{IsPossible, MayLeaveOut};
ghost use Rattle.ken_cover.specs.Overlay.{AreWithin};
ghost use Rattle.ken_cover.specs.Sides.{TurnPages, ImagePages, handed_pages, synced_pages};
ghost use Rattle.ken_image.specs.Calls.{Sync, Called};
ghost use Rattle.ken_image.specs.Faults.{HasImageCause, as_disk};
ghost use Rattle.ken_image.specs.Pages.{IsTornPage};
ghost use Rattle.ken_image.specs.Whole.{HasAllPages, IsWhole};
ghost use Rattle.ken_store.specs.declared.patching.Origin.TheVariants.{Record};
ghost use Rattle.ken_store.specs.Ahead.{frame_pages};
ghost use Rattle.ken_store.specs.PatchLaws.{IsAheadOf};
ghost use Rattle.ken_store.specs.Patching.{
  IsPatchSide,
  TakesPatches,
  Patching,
  PatchesBy,
  PatchSuffers,
  MayBePatched,
  SettlesBy,
  IsInOrder,
  IsFaultOfCall,
  Grows,
  GoesOn,
  GoesOnBy,
  first_number,
  page_calls,
  patch_calls,
  disk_answer,
  settled_turn,
  settled_before,
};

use crate::StoreFault;
use ken_disk::Disk;
use ken_frame::Frame;
use ken_image::{Image, ImageFault};
use std::alloc::AllocError;
use std::collections::VecDeque;
use std::sync::Arc;

/// The side of the patcher: the image, and the pages that are still to be written there.
#[derive(Debug, Drop)]
pub struct PatchSide<D> {
    pub(crate) image: Image<D>,
    // The base and the records with pages that aren't written yet, oldest first.
    pub(crate) ahead: VecDeque<Ahead>,
    // The last turn that it knows of.
    pub(crate) known: u64,
}

// What is still to be written of a base or of a record, and never nothing.
#[derive(Debug, Drop)]
pub(crate) struct Ahead {
    // The record's turn, or the last turn before the base.
    pub turn: u64,
    pub origin: Origin,
    // The next one first.
    pub pages: VecDeque<(u32, Arc<Frame>)>,
}

// Where pages come from.
#[derive(Clone, Copy, Debug, PartialEq, Eq)]
pub(crate) enum Origin {
    Base,
    Record,
}

impl<D: Disk> PatchSide<D> {
    /// Makes room for `n` more records. After an error only the room may have changed.
    pub fn reserve(&mut self, n: usize) -> Result<(), AllocError>
        ensures room { OnOk result (deque_len self.new.ahead + n ≤ deque_capacity self.new.ahead) }
        ensures kept { deque_capacity self.old.ahead ≤ deque_capacity self.new.ahead }
        ensures takes { TakesPatches D.told D.size self.old → TakesPatches D.told D.size self.new }
        ensures stands { (i : ImagePages) → Patching D.told D.size self.old i → Patching D.told D.size self.new i }
        ensures count { deque_len self.new.ahead ≡ deque_len self.old.ahead }
        ensures ahead { self.new.ahead.items ≡ self.old.ahead.items }
        ensures image { self.new.image ≡ self.old.image }
        ensures known { self.new.known ≡ self.old.known }
    {
        self.ahead.reserve(n)
    }

    /// Takes over the pages of a sealed record, to be written after those before. A record without pages leaves nothing to write.
    pub fn hand(&mut self, turn: u64, pages: Vec<(u32, Arc<Frame>)>)
        requires room { deque_len self.old.ahead < deque_capacity self.old.ahead }
        requires later { self.old.known < turn }
        requires within { AreWithin self.old.image.pages (frame_pages pages.items) }
        requires rising { IsTrue (rise_from page_rank 0 (frame_pages pages.items)) }
        ensures takes { TakesPatches D.told D.size self.old → TakesPatches D.told D.size self.new }
        ensures stands { (i : ImagePages) → Patching D.told D.size self.old i → Patching D.told D.size self.new (handed_pages turn (frame_pages pages.items) i) }
        ensures grown { Grows turn (frame_pages pages.items) self.old.ahead.items self.new.ahead.items }
        ensures image { self.new.image ≡ self.old.image }
        ensures known { self.new.known ≡ turn }
        ensures room { deque_capacity self.new.ahead ≡ deque_capacity self.old.ahead }
        ensures count { deque_len self.new.ahead ≤ deque_len self.old.ahead + 1 }
    {
        if !pages.is_empty() {
            self.ahead.push_back_reserved(Ahead {
                turn,
                origin: Origin::Record,
                pages: VecDeque::from_vec(pages),
            });
        }
        self.known = turn;
    }

    /// Syncs the image, by one call of the disk, and tells through which turn all pages are safe there: the last turn before the
    /// oldest record that is to patch, 0 where that is a base, and the last turn that it knows where nothing is to patch. After an
    /// error nothing more is safe than before, and after `Disk` no call follows.
    pub fn settle(&mut self) -> Result<u64, StoreFault>
        requires { TakesPatches D.told D.size self.old }
        ensures told { IfOk result (λ turn. turn ≡ settled_turn self.old.known self.old.ahead.items) }
        ensures stands { (i : ImagePages) → Patching D.told D.size self.old i → SettlesBy (D.told self.new.image.disk) result (Patching D.told D.size self.new) i }
        ensures clean { (i : ImagePages) (t : TurnPages) → Patching D.told D.size self.old i → IsAheadOf t i → IfOk result (λ turn. MayLeaveOut turn t (synced_pages i)) }
        ensures any_moment { (i : ImagePages) → Patching D.told D.size self.old i → Follows
            (λ h s. Through (λ image. IsPossible i (take (256 * self.old.image.pages) image)) h s)
            (D.told self.old.image.disk) (D.told self.new.image.disk) }
        ensures calls { Follows (Called (disk_answer result) (Sync ∷ [])) (D.told self.old.image.disk) (D.told self.new.image.disk) }
        ensures takes { OnOk result (TakesPatches D.told D.size self.new) }
        ensures goes_on { IsErrOf result StoreFault.Memory → TakesPatches D.told D.size self.new }
        ensures fails { OnErr result (Tells (D.told self.new.image.disk) (λ h. IsPatchSide D.told D.size self.new)) }
        ensures spent { IsErrOf result StoreFault.Disk → self.new.image.spent ≡ true }
        ensures ahead { self.new.ahead ≡ self.old.ahead }
        ensures known { self.new.known ≡ self.old.known }
        ensures count { self.new.image.pages ≡ self.old.image.pages }
        ensures sound { IfErr result IsFaultOfCall }
        ensures cause { HasCause (D.faults self.old.image.disk) (D.faults self.new.image.disk) (disk_answer result) }
        ensures fate { Follows (Suffers (disk_answer result)) (D.fate self.old.image.disk) (D.fate self.new.image.disk) }
    {
        self.image.sync()?;
        Ok(self.settled())
    }

    /// Writes the next page of the oldest record that is to patch, by one call of the disk: false exactly where there is none, and
    /// then no call is made. After `Disk` the page counts as written, and is no longer to patch; no call follows. After
    /// `Memory` nothing has changed.
    pub fn patch_next(&mut self) -> Result<bool, StoreFault>
        requires { TakesPatches D.told D.size self.old }
        ensures stands { (i : ImagePages) → Patching D.told D.size self.old i → PatchesBy (D.told self.new.image.disk) result (Patching D.told D.size self.new) i }
        ensures any_moment { (i : ImagePages) → Patching D.told D.size self.old i → Follows
            (λ h s. Through (λ image. MayBePatched i (take (256 * self.old.image.pages) image)) h s)
            (D.told self.old.image.disk) (D.told self.new.image.disk) }
        ensures calls { Follows (Called (disk_answer result) (patch_calls self.old.ahead.items)) (D.told self.old.image.disk) (D.told self.new.image.disk) }
        ensures more { IfOk result (λ more. IsTrue more ↔ (self.old.ahead.items ≢ [])) }
        ensures takes { OnOk result (TakesPatches D.told D.size self.new) }
        ensures goes_on { IsErrOf result StoreFault.Memory → TakesPatches D.told D.size self.new }
        ensures fails { OnErr result (Tells (D.told self.new.image.disk) (λ h. IsPatchSide D.told D.size self.new)) }
        ensures spent { IsErrOf result StoreFault.Disk → self.new.image.spent ≡ true }
        ensures ahead { GoesOnBy result self.old.ahead.items self.new.ahead.items }
        ensures known { self.new.known ≡ self.old.known }
        ensures count { self.new.image.pages ≡ self.old.image.pages }
        ensures room { deque_capacity self.new.ahead ≡ deque_capacity self.old.ahead }
        ensures shorter { deque_len self.new.ahead ≤ deque_len self.old.ahead }
        ensures sound { IfErr result IsFaultOfCall }
        ensures cause { HasCause (D.faults self.old.image.disk) (D.faults self.new.image.disk) (disk_answer result) }
        ensures fate { Follows (PatchSuffers result) (D.fate self.old.image.disk) (D.fate self.new.image.disk) }
    {
        let Some(next) = self.ahead.front() else {
            return Ok(false);
        };
        match write_first(&mut self.image, next) {
            Ok(()) => {
                pass_first(&mut self.ahead);
                Ok(true)
            }
            Err(ImageFault::Disk) => {
                pass_first(&mut self.ahead);
                Err(StoreFault::Disk)
            }
            Err(ImageFault::Memory) => Err(StoreFault::Memory),
        }
    }

    // The last turn before what is to patch.
    fn settled(&self) -> u64
        requires { IsInOrder self.now.known self.now.ahead.items }
        ensures { result ≡ settled_turn self.now.known self.now.ahead.items }
    {
        match self.ahead.front() {
            Some(next) => next.before(),
            None => self.known,
        }
    }
}

impl Ahead {
    // The last turn before it, and none before a base.
    fn before(&self) -> u64
        requires { self.now.origin ≡ Record → 1 ≤ self.now.turn }
        ensures { result ≡ settled_before self.now }
    {
        match self.origin {
            Origin::Base => 0,
            Origin::Record => self.turn - 1,
        }
    }
}

// Writes the first page of what is ahead.
fn write_first<D: Disk>(image: &mut Image<D>, next: &Ahead) -> Result<(), ImageFault>
    requires whole { IsWhole D.told D.size image.old }
    requires some { next.now.pages.items ≢ [] }
    requires within { AreWithin image.old.pages (frame_pages next.now.pages.items) }
    ensures calls { Follows (Called (as_disk result) (page_calls next.now.pages.items)) (D.told image.old.disk) (D.told image.new.disk) }
    ensures any_moment { Follows (λ h s. Through (IsTornPage (first_number next.now.pages.items) h.now) h s) (D.told image.old.disk) (D.told image.new.disk) }
    ensures whole { OnOk result (IsWhole D.told D.size image.new) }
    ensures goes_on { IsErrOf result ImageFault.Memory → IsWhole D.told D.size image.new }
    ensures fails { OnErr result (Tells (D.told image.new.disk) (λ h. HasAllPages D.told D.size image.new)) }
    ensures spent { IsErrOf result ImageFault.Disk → image.new.spent ≡ true }
    ensures count { image.new.pages ≡ image.old.pages }
    ensures cause { HasImageCause (D.faults image.old.disk) (D.faults image.new.disk) result }
    ensures fate { Follows (Suffers (as_disk result)) (D.fate image.old.disk) (D.fate image.new.disk) }
{
    match next.pages.front() {
        Some((page, frame)) => image.patch(*page, frame),
        None => unreachable!(),
    }
}

// The first page of what is ahead counts as written.
fn pass_first(ahead: &mut VecDeque<Ahead>)
    ensures items { GoesOn ahead.old.items ahead.new.items }
    ensures room { deque_capacity ahead.new ≡ deque_capacity ahead.old }
    ensures shorter { deque_len ahead.new ≤ deque_len ahead.old }
{
    let Some(mut next) = ahead.pop_front() else {
        return;
    };
    next.pages.pop_front();
    if !next.pages.is_empty() {
        ahead.push_front_reserved(next);
    }
}
