// Pages one after the other, as one list of bytes.
ghost use Rattle.std.specs.Prelude.{◌≡◌, ◌+◌, ◌-◌, ◌*◌, ◌/◌, ◌%◌, ◌<◌, ◌≤◌, length, take, drop, true, slice_index_or, false, ℕ, [], IfOk, OnOk, OnErr};
ghost use Rattle.std.specs.Arc.{arc_value};
ghost use Rattle.ken_frame.specs.Written.{written};
ghost use Rattle.ken_pages.specs.Paged.{page_of};
ghost use Rattle.ken_pages.specs.Layout.{ArePages, now_bytes, SameTurn, own_pages, kept_pages, Lists};

use crate::page::Page;
use ken_frame::{FRAME, Frame};
use std::alloc::{AllocError, Global};
use std::sync::Arc;

// Reads bytes of one page.
fn read_part(pages: &[Page], at: usize, buf: &mut [u8])
    requires whole { ArePages pages.now }
    requires inside { at < 256 * length pages.now }
    requires one { at % 256 + length buf.old ≤ 256 }
    ensures { buf.new ≡ take (length buf.old) (drop at (now_bytes pages.now)) }
{
    pages[at / FRAME].frame().read(at % FRAME, buf);
}

// Reads from the place `at` on.
pub(crate) fn read(pages: &[Page], at: usize, buf: &mut [u8])
    requires whole { ArePages pages.now }
    requires few { length pages.now ≤ 4096 }
    requires within { at + length buf.old ≤ 256 * length pages.now }
    ensures { buf.new ≡ take (length buf.old) (drop at (now_bytes pages.now)) }
{
    let mut done = 0;
    while done < buf.len() {
        let place = at + done;
        let part = (FRAME - place % FRAME).min(buf.len() - done);
        read_part(pages, place, &mut buf[done..done + part]);
        done += part;
    }
}

// The bytes from the place `at` on, up to the end of its page.
pub(crate) fn rest(pages: &[Page], at: usize) -> &[u8]
    requires whole { ArePages pages.now }
    requires inside { at < 256 * length pages.now }
    ensures bytes { result.now ≡ take (256 - at % 256) (drop at (now_bytes pages.now)) }
    ensures long { length result.now ≡ 256 - at % 256 }
{
    &pages[at / FRAME].frame().as_slice()[at % FRAME..]
}

// A page's bytes, without a copy where its frame is shared already.
pub(crate) fn lend(alloc: Global, pages: &[Page], page: u32) -> Result<Arc<Frame>, AllocError>
    requires whole { ArePages pages.now }
    requires inside { page < length pages.now }
    ensures { IfOk result (λ frame. arc_value frame ≡ page_of (now_bytes pages.now) page) }
{
    pages[page as usize].lend(alloc)
}

// Writes bytes of one page, to the turn's own frame.
fn write_part(pages: &mut [Page], at: usize, bytes: &[u8])
    requires whole { ArePages pages.old }
    requires inside { at < 256 * length pages.old }
    requires one { at % 256 + length bytes.now ≤ 256 }
    requires own { slice_index_or (own_pages pages.old) (at / 256) false ≡ true }
    ensures bytes { now_bytes pages.new ≡ written (now_bytes pages.old) at bytes.now }
    ensures whole { ArePages pages.new }
    ensures turn { SameTurn pages.old pages.new }
{
    pages[at / FRAME].write(at % FRAME, bytes);
}

// Writes from the place `at` on, to the turn's own frames.
pub(crate) fn write(pages: &mut [Page], at: usize, bytes: &[u8])
    requires whole { ArePages pages.old }
    requires few { length pages.old ≤ 4096 }
    requires within { at + length bytes.now ≤ 256 * length pages.old }
    requires own { (p : ℕ) → 256 * p < at + length bytes.now → at < 256 * p + 256
        → slice_index_or (own_pages pages.old) p false ≡ true }
    ensures bytes { now_bytes pages.new ≡ written (now_bytes pages.old) at bytes.now }
    ensures whole { ArePages pages.new }
    ensures turn { SameTurn pages.old pages.new }
{
    let mut done = 0;
    while done < bytes.len() {
        let place = at + done;
        let part = (FRAME - place % FRAME).min(bytes.len() - done);
        write_part(pages, place, &bytes[done..done + part]);
        done += part;
    }
}

// Takes a frame's bytes over into a page, where the turn wrote none.
pub(crate) fn load(
    alloc: Global,
    pages: &mut [Page],
    page: u32,
    frame: &Frame,
) -> Result<(), AllocError>
    requires whole { ArePages pages.old }
    requires inside { page < length pages.old }
    requires none { Lists [] (kept_pages pages.old) }
    ensures whole { ArePages pages.new }
    ensures bytes { OnOk result (now_bytes pages.new ≡ written (now_bytes pages.old) (256 * page) frame.now) }
    ensures same { OnErr result (now_bytes pages.new ≡ now_bytes pages.old) }
    ensures own { own_pages pages.new ≡ own_pages pages.old }
    ensures kept { kept_pages pages.new ≡ kept_pages pages.old }
    ensures count { length pages.new ≡ length pages.old }
{
    pages[page as usize].load(alloc, frame)
}
