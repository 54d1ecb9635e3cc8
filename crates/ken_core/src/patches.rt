// Pages are written to the image, and it is synced.
ghost use Rattle.std.specs.Prelude.{◌≡◌, ◌<◌, ◌==◌, false, reverse, IsTrue, option_copied};
ghost use Rattle.std.specs.List.{find};
ghost use Rattle.std.specs.VecDeque.{deque_len, deque_capacity};
ghost use Rattle.ken_cover.specs.declared.layers.Change.{Change};
ghost use Rattle.ken_cover.specs.Sides.{onto, without_page, synced_pages};
ghost use Rattle.ken_core.specs.Machines.{turn_pages, image_pages, IsPaged, Writes, IsWritten, KeepsWidths};

use crate::bytes::lay_one;
use crate::marks::mark_layers;
use crate::pages::Pages;
use ken_cover::{Change, Layer};
use ken_model::Items;
use std::collections::VecDeque;

impl Pages {
    /// Writes a page of the oldest record to patch to the image: false where it has none of that number.
    pub(crate) fn patch(&mut self, page: u32) -> bool
        requires { IsPaged self.old }
        ensures made { IsTrue result → Writes page (image_pages self.old) (image_pages self.new) }
        ensures none { result ≡ false → IsWritten page (image_pages self.old) }
        ensures same { result ≡ false → image_pages self.new ≡ image_pages self.old }
        ensures turning { turn_pages self.new ≡ turn_pages self.old }
        ensures widths { KeepsWidths self.old self.new }
    {
        let Some(first) = self.ahead.pop_front() else {
            return false;
        };
        let Some(change) = newest(first.changes.as_slice(), page) else {
            self.ahead.push_front_reserved(first);
            return false;
        };
        lay_one(&mut self.image, &change.page);
        self.opened.insert(u64::from(page));
        let turn = first.turn;
        let changes = without(first.changes, page);
        put_back(&mut self.ahead, turn, changes);
        true
    }

    /// Syncs the image: all pages are clean then but those waiting to be patched.
    pub(crate) fn sync(&mut self)
        requires { IsPaged self.old }
        ensures image { image_pages self.new ≡ synced_pages (image_pages self.old) }
        ensures turning { turn_pages self.new ≡ turn_pages self.old }
        ensures widths { KeepsWidths self.old self.new }
    {
        self.unclean.clear();
        self.opened.clear();
        let (front, back) = self.ahead.as_slices();
        mark_layers(&mut self.unclean, front);
        mark_layers(&mut self.unclean, back);
    }
}

/// The newest change of a page.
fn newest(changes: &[Change], page: u32) -> Option<&Change>
    ensures { option_copied result ≡ find (λ (c : Change). c.page.page == page) (reverse changes.now) }
{
    changes.iter().rev().find(|change| change.page.page == page)
}

/// The changes of other pages.
fn without(changes: Items<Change>, page: u32) -> Vec<Change>
    ensures { result.items ≡ without_page page changes }
{
    let mut changes = changes.into_vec();
    changes.retain(|change| change.page.page != page);
    changes
}

/// Puts what is left of a record back before the others, for which there is room.
fn put_back(ahead: &mut VecDeque<Layer>, turn: u64, changes: Vec<Change>)
    requires { deque_len ahead.old < deque_capacity ahead.old }
    ensures { ahead.new.items ≡ onto turn changes.items ahead.old.items }
{
    if !changes.is_empty() {
        ahead.push_front_reserved(Layer {
            turn,
            changes: Items::new(changes),
        });
    }
}
