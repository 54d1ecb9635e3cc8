// Pages laid over bytes.
ghost use Rattle.std.specs.Prelude.{◌≡◌, ◌+◌, ◌*◌, ◌≤◌, ◌<◌, ◌↔◌, length, map, IsTrue, IsNone, IfSome};
ghost use Rattle.std.specs.List.{All, AllByRecursion};
ghost use Rattle.ken_record.specs.Grammar.{rise_from, page_rank};
ghost use Rattle.ken_pages.specs.Paged.{page_of};
ghost use Rattle.ken_cover.specs.Overlay.{with_page, overlay};
ghost use Rattle.ken_cover.specs.Sides.{pages_of};
ghost use Rattle.ken_core.specs.Enabled.{IsChanged, AreChanged};
ghost use Rattle.ken_core.specs.Pages.{IsFit, AreFit, HaveFit};

use ken_cover::{Change, Layer};
use ken_model::PAGE;
use ken_record::Page;

pub(crate) const PAGE_BYTES: usize = PAGE as usize;

/// The bytes of a page that lies within.
pub(crate) fn page_in(bytes: &[u8], page: u32) -> &[u8]
    requires { 256 * page + 256 ≤ length bytes.now }
    ensures { result.now ≡ page_of bytes.now page }
{
    let start = page as usize * PAGE_BYTES;
    &bytes[start..start + PAGE_BYTES]
}

/// The bytes of a page, where it lies within.
fn page_at(bytes: &[u8], page: u32) -> Option<&[u8]>
    ensures some { IfSome result (λ part. part.now ≡ page_of bytes.now page) }
    ensures within { IfSome result (λ _. 256 * page + 256 ≤ length bytes.now) }
    ensures none { IsNone result → length bytes.now < 256 * page + 256 }
{
    let start = page as usize * PAGE_BYTES;
    if start + PAGE_BYTES <= bytes.len() {
        Some(&bytes[start..start + PAGE_BYTES])
    } else {
        None
    }
}

/// Lays a whole page that lies within over the bytes.
pub(crate) fn lay_one(bytes: &mut [u8], page: &Page)
    requires whole { length page.now.bytes ≡ 256 }
    requires within { 256 * page.now.page + 256 ≤ length bytes.old }
    ensures { bytes.new ≡ with_page bytes.old page.now }
{
    let start = page.page as usize * PAGE_BYTES;
    bytes[start..start + PAGE_BYTES].copy_from_slice(page.bytes.as_slice());
}

/// Whether a page lies in the heap, is whole, and differs from the heap's.
fn is_changed(heap: &[u8], page: &Page) -> bool
    ensures { IsTrue result ↔ IsChanged heap.now page.now }
{
    let _number = page.page;
    match page_at(heap, page.page) {
        Some(old) => page.bytes.len() == PAGE_BYTES && old != page.bytes.as_slice(),
        None => false,
    }
}

/// Whether the pages rise strictly.
pub(crate) fn rise(pages: &[Page]) -> bool
    ensures { result ≡ rise_from page_rank 0 pages.now }
{
    let mut low = 0;
    for page in pages {
        if u64::from(page.page) < low {
            return false;
        }
        low = u64::from(page.page) + 1;
    }
    true
}

/// Whether each page is a changed one.
fn all_changed(heap: &[u8], pages: &[Page]) -> bool
    ensures { IsTrue result ↔ All (IsChanged heap.now) pages.now }
{
    for page in pages {
        if !is_changed(heap, page) {
            return false;
        }
    }
    true
}

/// Whether the pages rise, and each is a changed one.
pub(crate) fn are_changed(heap: &[u8], pages: &[Page]) -> bool
    ensures { IsTrue result ↔ AreChanged heap.now pages.now }
{
    rise(pages) && all_changed(heap, pages)
}

/// Lays whole pages that lie within over the bytes, one after the other.
pub(crate) fn lay(bytes: &mut [u8], pages: &[Page])
    requires { AllByRecursion (IsFit (length bytes.old)) pages.now }
    ensures { bytes.new ≡ overlay bytes.old pages.now }
{
    for page in pages {
        lay_one(bytes, page);
    }
}

/// Lays the pages of layers that lie within over the bytes, oldest first.
pub(crate) fn lay_layers(bytes: &mut [u8], layers: &[Layer])
    requires { HaveFit (length bytes.old) layers.now }
    ensures { bytes.new ≡ overlay bytes.old (pages_of layers.now) }
{
    for layer in layers {
        lay_changes(bytes, layer.changes.as_slice());
    }
}

/// Lays the pages of changes that lie within over the bytes, one after the other.
pub(crate) fn lay_changes(bytes: &mut [u8], changes: &[Change])
    requires { AreFit (length bytes.old) changes.now }
    ensures { bytes.new ≡ overlay bytes.old (map (λ c. c.page) changes.now) }
{
    for change in changes {
        lay_one(bytes, &change.page);
    }
}

/// Whether all pages are whole.
pub(crate) fn are_whole(pages: &[Page]) -> bool
    ensures { IsTrue result ↔ All (λ e. length e.bytes ≡ 256) pages.now }
{
    pages.iter().all(|page| page.bytes.len() == PAGE_BYTES)
}
