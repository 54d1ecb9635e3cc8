// A base takes the live records' place.
ghost use Rattle.std.specs.Prelude.{◌≡◌, ◌<◌, ◌≤◌, ◌+◌, ◌*◌, ◌^◌, ◌++◌, ℕ, true, false, length, option_map, slice_index_or, Option, None, IfOk, IfSome, IfNone, IsTrue};
ghost use Rattle.std.specs.List.{AllByRecursion};
ghost use Rattle.std.specs.Option.{option_or};
ghost use Rattle.ken_cover.specs.declared.layers.Change.{Change};
ghost use Rattle.ken_cover.specs.Overlay.{newest_by};
ghost use Rattle.ken_cover.specs.Sides.{last_change, stays, base_change, base_changes};
ghost use Rattle.ken_cover.specs.Covers.{MayLeaveOut};
ghost use Rattle.ken_pages.specs.Paged.{page_of};
ghost use Rattle.ken_core.specs.Machines.{turn_pages, image_pages, IsPaged};
ghost use Rattle.ken_core.specs.Staying.{MayStay, MustStay};

use crate::bytes::page_in;
use crate::pages::Pages;
use ken_cover::{Change, Layer};
use ken_model::{Items, Octets};
use ken_record::{Page, PageBytes};
use std::alloc::{AllocError, Global};

impl Pages {
    /// The pages of a base where `settled` was told as the settled turn, rising: `None` where a page that it leaves out
    /// isn't clean.
    pub(crate) fn base(
        &self,
        alloc: Global,
        settled: u64,
    ) -> Result<Option<Vec<Change>>, AllocError>
        requires paged { IsPaged self.now }
        requires few { length self.now.unclean < 2 ^ 32 }
        ensures some { IfOk result (λ base. IfSome base (λ cs. cs.items ≡ base_changes (length self.now.unclean) settled (turn_pages self.now))) }
        ensures may { IfOk result (λ base. IfSome base (λ _. MayLeaveOut settled (turn_pages self.now) (image_pages self.now))) }
        ensures may_not { IfOk result (λ base. IfNone base (MayLeaveOut settled (turn_pages self.now) (image_pages self.now) → ⊥)) }
    {
        let width = self.unclean.width();
        let last = last_turns(alloc, self.live.as_slice(), width)?;
        let mut changes = Vec::new(alloc);
        for page in 0..width {
            if !self.put(alloc, settled, page as u32, last[page], &mut changes)? {
                return Ok(None);
            }
        }
        Ok(Some(changes))
    }

    /// Puts a page with the turn that last changed it into a base, or leaves it out: false where it may not be left out.
    fn put(
        &self,
        alloc: Global,
        settled: u64,
        page: u32,
        turn: Option<u64>,
        changes: &mut Vec<Change>,
    ) -> Result<bool, AllocError>
        requires { 256 * page + 256 ≤ length self.now.heap }
        ensures made { IfOk result (λ may. IsTrue may → (last : Option Change) → turn ≡ option_map (λ c. c.turn) last
            → changes.new.items ≡ changes.old.items ++ base_change settled self.now.heap page last) }
        ensures may { IfOk result (λ may. IsTrue may → MayStay settled page turn self.now) }
        ensures may_not { IfOk result (λ may. may ≡ false → MustStay settled page turn self.now) }
    {
        let Some(turn) = turn else {
            return Ok(true);
        };
        if stays(settled, turn) {
            changes.push(self.change(alloc, turn, page)?)?;
            return Ok(true);
        }
        Ok(!self.unclean.contains(u64::from(page)))
    }

    /// A page of the heap, with the turn that last changed it.
    fn change(&self, alloc: Global, turn: u64, page: u32) -> Result<Change, AllocError>
        requires { 256 * page + 256 ≤ length self.now.heap }
        ensures { IfOk result (λ c. c ≡ record { turn = turn; page = record { page = page; bytes = page_of self.now.heap page } }) }
    {
        let bytes = page_in(self.heap.as_slice(), page);
        Ok(Change {
            turn,
            page: Page {
                page,
                bytes: PageBytes::own(Octets::new(Vec::from_slice(alloc, bytes)?)),
            },
        })
    }
}

/// Whether a page that last changed in a turn goes into a base.
fn stays(settled: u64, turn: u64) -> bool
    ensures { result ≡ stays settled turn }
{
    settled == 0 || settled < turn
}

/// The turn that last changed each page of a heap of so many.
fn last_turns(alloc: Global, live: &[Layer], pages: usize) -> Result<Vec<Option<u64>>, AllocError>
    requires { AllByRecursion (λ l. AllByRecursion (λ c. c.page.page < pages) l.changes) live.now }
    ensures width { IfOk result (λ last. length last.items ≡ pages) }
    ensures turns { IfOk result (λ last. (p : ℕ) → slice_index_or last.items p None ≡ option_map (λ (c : Change). c.turn) (last_change p live.now)) }
{
    let mut last = Vec::from_elem(alloc, None, pages)?;
    for layer in live {
        note_turns(&mut last, layer.changes.as_slice());
    }
    Ok(last)
}

/// Notes the turns of newer changes.
fn note_turns(last: &mut [Option<u64>], changes: &[Change])
    requires { AllByRecursion (λ c. c.page.page < length last.old) changes.now }
    ensures { (p : ℕ) → slice_index_or last.new p None ≡ option_or (option_map (λ (c : Change). c.turn) (newest_by (λ (c : Change). c.page) p changes.now)) (slice_index_or last.old p None) }
{
    for change in changes {
        last[change.page.page as usize] = Some(change.turn);
    }
}
