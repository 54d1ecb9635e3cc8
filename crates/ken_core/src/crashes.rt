// A crash, and what a recovery makes of a node's pages.
ghost use Rattle.std.specs.Prelude.{◌≡◌, ◌↔◌, ◌<◌, ℕ, map, IfOk, OnOk, OnErr, IsTrue};
ghost use Rattle.std.specs.List.{All};
ghost use Rattle.ken_cover.specs.Overlay.{among, numbers};
ghost use Rattle.ken_cover.specs.Sides.{recounted, with_pages, crashed_pages, recovered_turn_pages, recovered_image_pages};
ghost use Rattle.ken_cover.specs.Covers.{AreTorn};
ghost use Rattle.ken_core.specs.Sets.{has};
ghost use Rattle.ken_core.specs.Machines.{turn_pages, image_pages, IsPaged, KeepsWidths};

use crate::bytes::{are_whole, lay, lay_layers, rise};
use crate::copies;
use crate::heap::Heap;
use crate::marks::{mark_layers, mark_pages};
use crate::number_set::Numbers;
use crate::pages::Pages;
use ken_cover::Layer;
use ken_record::Page;
use std::alloc::{AllocError, Global};
use std::collections::VecDeque;

impl Pages {
    /// Whether the pages are whole and exactly the open ones, rising strictly.
    pub(crate) fn are_torn(&self, alloc: Global, pages: &[Page]) -> Result<bool, AllocError>
        ensures { IfOk result (λ yes. IsTrue yes ↔ AreTorn (image_pages self.now) pages.now) }
    {
        if !are_whole(pages) || !rise(pages) {
            return Ok(false);
        }
        are_numbers(alloc, pages, &self.opened)
    }

    /// Crashes, with these bytes on the open pages.
    pub(crate) fn crash(&mut self, pages: &[Page])
        requires paged { IsPaged self.old }
        requires torn { AreTorn (image_pages self.old) pages.now }
        ensures image { image_pages self.new ≡ crashed_pages pages.now (image_pages self.old) }
        ensures turning { turn_pages self.new ≡ turn_pages self.old }
        ensures widths { KeepsWidths self.old self.new }
    {
        lay(&mut self.image, pages);
        self.opened.clear();
    }

    /// Lays the live records over the image, and has them all to patch again. After an error nothing has changed.
    pub(crate) fn recover(&mut self, alloc: Global) -> Result<(), AllocError>
        requires { IsPaged self.old }
        ensures turning { OnOk result (turn_pages self.new ≡ recovered_turn_pages self.old.image.items (turn_pages self.old)) }
        ensures image { OnOk result (image_pages self.new ≡ recovered_image_pages self.old.live.items (image_pages self.old)) }
        ensures err { OnErr result ((turn_pages self.new ≡ turn_pages self.old) × (image_pages self.new ≡ image_pages self.old)) }
        ensures widths { KeepsWidths self.old self.new }
    {
        let mut heap = Vec::from_slice(alloc, self.image.as_slice())?;
        lay_layers(&mut heap, self.live.as_slice());
        let mut unclean = Numbers::none(alloc, self.unclean.width())?;
        mark_layers(&mut unclean, self.live.as_slice());
        let ahead = to_patch(alloc, self.live.as_slice())?;
        let live = recounted_layers(alloc, self.live.as_slice())?;
        self.heap = Heap::new(heap);
        self.live = live;
        self.ahead = ahead;
        self.unclean = unclean;
        Ok(())
    }
}

/// Whether a set has exactly the numbers of the pages.
fn are_numbers(alloc: Global, pages: &[Page], set: &Numbers) -> Result<bool, AllocError>
    ensures { IfOk result (λ yes. IsTrue yes ↔ ((k : ℕ) → among (numbers pages.now) k ≡ has set.now k)) }
{
    let width = set.width();
    if !have_room(pages, width) {
        return Ok(false);
    }
    let mut named = Numbers::none(alloc, width)?;
    mark_pages(&mut named, pages);
    Ok(named.is_same(set))
}

/// Whether a set of that width has room for the numbers of the pages.
fn have_room(pages: &[Page], width: usize) -> bool
    ensures { IsTrue result ↔ All (λ e. e.page < width) pages.now }
{
    pages.iter().all(|page| (page.page as usize) < width)
}

/// The layers, with each page as changed by the last turn of its layer.
fn recounted_layers(alloc: Global, layers: &[Layer]) -> Result<Vec<Layer>, AllocError>
    ensures { IfOk result (λ ls. ls.items ≡ map recounted layers.now) }
{
    let mut recounted = Vec::with_capacity(alloc, layers.len())?;
    for layer in layers {
        recounted.push(copies::recounted(alloc, layer)?)?;
    }
    Ok(recounted)
}

/// Those of them that have a page.
fn to_patch(alloc: Global, layers: &[Layer]) -> Result<VecDeque<Layer>, AllocError>
    ensures { IfOk result (λ ls. ls.items ≡ with_pages (map recounted layers.now)) }
{
    let mut ahead = VecDeque::new(alloc);
    for layer in layers {
        if !layer.changes.is_empty() {
            ahead.push_back(copies::recounted(alloc, layer)?)?;
        }
    }
    Ok(ahead)
}
